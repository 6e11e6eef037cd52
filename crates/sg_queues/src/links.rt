//! Rings of nodes, linked both ways.
ghost use Rattle.std.specs.Prelude.{◌≡◌, ◌≢◌, ◌<◌, ◌≤◌, ◌+◌, ◌++◌, ◌∷◌, ◌^◌, [], ℕ, length, IfOk, OnOk, OnErr, slice_set};
ghost use Rattle.sg_queues.specs.kept.Links.{at, AreLinked, IsExchanged};

use sg_base::Memory;

/// So many nodes there may be: their numbers have 32 bits.
pub(crate) const MOST: usize = 1 << 32;

/// What each node leads to, and from where each is led to.
#[derive(Drop)]
pub(crate) struct Links {
    pub(crate) next: Vec<u32>,
    pub(crate) prev: Vec<u32>,
}

impl Links {
    // Links one node to another.
    fn link(&mut self, from: usize, to: usize)
        requires from { from < length self.old.next.items }
        requires to { to < length self.old.prev.items }
        requires next_few { length self.old.next.items ≤ 2 ^ 32 }
        requires prev_few { length self.old.prev.items ≤ 2 ^ 32 }
        ensures next { self.new.next.items ≡ slice_set self.old.next.items from to }
        ensures prev { self.new.prev.items ≡ slice_set self.old.prev.items to from }
    {
        self.next[from] = to as u32;
        self.prev[to] = from as u32;
    }

    /// Returns what a node leads to.
    pub(crate) fn next_of(&self, node: usize) -> usize
        requires linked { AreLinked self.now.next.items self.now.prev.items }
        requires node { node < length self.now.next.items }
        ensures is { result ≡ at self.now.next.items node }
        ensures within { result < length self.now.next.items }
    {
        self.next[node] as usize
    }

    fn prev_of(&self, node: usize) -> usize
        requires linked { AreLinked self.now.next.items self.now.prev.items }
        requires node { node < length self.now.next.items }
        ensures is { result ≡ at self.now.prev.items node }
        ensures within { result < length self.now.next.items }
    {
        self.prev[node] as usize
    }

    /// Exchanges what a slot, and the node that leads to this one, lead to: this takes a slot out of its ring, if it is
    /// the node itself, and puts a slot that is alone into the ring of another node, in front of that.
    pub(crate) fn exchange_before(&mut self, node: usize, slot: usize)
        requires linked { AreLinked self.old.next.items self.old.prev.items }
        requires node { node < length self.old.next.items }
        requires slot { slot < length self.old.next.items }
        ensures linked { AreLinked self.new.next.items self.new.prev.items }
        ensures exchanged { IsExchanged self.old.next.items self.new.next.items
            (at self.old.prev.items node) slot }
    {
        let before = self.prev_of(node);
        let after = self.next_of(slot);
        self.link(before, after);
        self.link(slot, node);
    }

    /// Adds a node, which is alone, and returns its number. It takes memory before it changes anything.
    pub(crate) fn add(&mut self) -> Result<usize, Memory>
        requires { length self.old.prev.items ≡ length self.old.next.items }
        ensures node { IfOk result (λ node. node ≡ length self.old.next.items) }
        ensures few { OnOk result (length self.old.next.items < 2 ^ 32) }
        ensures next { OnOk result (self.new.next.items
            ≡ self.old.next.items ++ length self.old.next.items ∷ []) }
        ensures prev { OnOk result (self.new.prev.items
            ≡ self.old.prev.items ++ length self.old.next.items ∷ []) }
        ensures next_kept { OnErr result (self.new.next.items ≡ self.old.next.items) }
        ensures prev_kept { OnErr result (self.new.prev.items ≡ self.old.prev.items) }
    {
        let node = self.next.len();
        if node >= MOST {
            return Err(Memory);
        }
        self.next.reserve(1)?;
        self.prev.reserve(1)?;
        self.next.push_reserved(node as u32);
        self.prev.push_reserved(node as u32);
        Ok(node)
    }
}
