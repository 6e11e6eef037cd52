//! What the profiles of a table are of.
ghost use Rattle.std.specs.Prelude.{IfOk, map};
ghost use Rattle.sg_toml_tree.specs.kept.Parts.{AreSubjects};
ghost use Rattle.toml.specs.View.{view};

use crate::name_spaces::names_at;
use indexmap::IndexMap;
use sg_base::Memory;
use std::alloc::Global;
use toml::Value;

/// The hosts and links that a table has profiles of, under the rows in which each stands first.
#[derive(Drop)]
pub struct Subjects {
    pub hosts: IndexMap<String, u32>,
    pub links: IndexMap<String, u32>,
}

impl Subjects {
    /// Returns those of the rows of a table.
    pub fn of_rows(alloc: Global, rows: &[Value]) -> Result<Subjects, Memory>
        ensures { IfOk result (AreSubjects (map view rows.now)) }
    {
        let hosts = names_at(alloc, "host", rows)?;
        let links = names_at(alloc, "link", rows)?;
        Ok(Subjects { hosts, links })
    }
}
