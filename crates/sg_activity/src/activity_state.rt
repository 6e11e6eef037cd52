//! What `Activities` keeps.
use crate::index::Index;
use arrayvec::ArrayVec;
use sg_activity_table::{HostCap, LinkCap, Lives};
use sg_base::{LinkId, Marks};
use sg_heap::Agenda;
use sg_lazy::Lazy;

#[derive(Drop)]
pub(crate) struct Kept {
    pub(crate) hosts: Vec<HostCap>,
    pub(crate) links: Vec<LinkCap>,
    /// Whether each host is on, and each link.
    pub(crate) hosts_on: Vec<bool>,
    pub(crate) links_on: Vec<bool>,
    /// It holds a flow for each running execution and each running flow.
    pub(crate) lazy: Lazy,
    /// The running activities, by key.
    pub(crate) lives: Lives,
    /// By things, the hosts, then the links, then the hosts as ends, the running activities that use them, and by key
    /// what each uses: the ends of a communication, and then the links of its route.
    pub(crate) index: Index,
    /// By key when each phase completes, unless it never does or began since the rates were brought up to date.
    pub(crate) agenda: Agenda,
    /// By the number of a flow the key of its activity.
    pub(crate) by_flow: Vec<usize>,
    /// The keys of the phases that began since the rates were brought up to date.
    pub(crate) fresh: Marks,
    /// How many activity ids were drawn.
    pub(crate) drawn: u64,
    pub(crate) date: u128,
    pub(crate) settled: bool,
    /// Whether the phases whose date is now complete: they do from when the date was reached until the rates are
    /// brought up to date.
    pub(crate) arrived: bool,
    pub(crate) room: usize,
    /// For so many flows there is room: one for each start that there is room for, and one for each latency that
    /// passes.
    pub(crate) flows: usize,
    /// For so many uses by these flows there is room: 64 for each start, and one for each link of a latency's route.
    pub(crate) uses: usize,
    /// The links of a route, what its flow uses, and what its communication uses: written before they are passed on, in
    /// places of their own, since making an array takes longer than writing a route.
    pub(crate) way: ArrayVec<LinkId, 64>,
    pub(crate) way_uses: ArrayVec<usize, 64>,
    pub(crate) things: ArrayVec<usize, 66>,
}
