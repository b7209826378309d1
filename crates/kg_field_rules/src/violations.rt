//! The broken rules of a body, with the paths of their fields.

ghost use Rattle.std.specs.Prelude.{◌≡◌, [], ◌↔◌, IfOk, OnOk, IsTrue};
ghost use Rattle.std.specs.BTreeMap.{keys};
ghost use Rattle.std.specs.Cmp.Lexicographic.{slice_cmp};
ghost use Rattle.std.specs.List.Sorted.{IsStrictlySortedBy};
ghost use Rattle.std.specs.Map.{keys_of};
ghost use Rattle.std.specs.Ordering.{nat_cmp};
ghost use Rattle.kg_field_rules.specs.Rules.{counted, listed, tell};

use crate::rule::{Rule, first};
use kg_text::{List, NoMemory, Text};
use std::alloc::Global;
use std::collections::BTreeMap;
use std::marker::Model;

/// A rule that a body breaks.
#[derive(Debug, PartialEq, Drop)]
pub struct Broken {
    /// The field's name; inside `config`, and inside an object of it, the names joined by dots.
    pub path: Text,
    pub rule: Rule,
}

/// Broken rules, each path once, with the rule that counts there. Contracts see the list of paths
/// and rules in byte order of the paths.
#[derive(Drop)]
pub struct Violations {
    rules: BTreeMap<Text, Rule>,
}

impl Model for Violations {
    ghost use Rattle.std.specs.Prelude.{List};
    ghost use Rattle.kg_field_rules.specs.Rules.{BrokenRule};

    ghost Value = { List BrokenRule };

    ghost view = { λ violations. violations.rules.entries };
}

impl Violations {
    /// No violations. It takes no memory.
    pub fn new(alloc: Global) -> Violations
        ensures { result ≡ [] }
    {
        Violations {
            rules: BTreeMap::new(alloc),
        }
    }

    pub fn is_empty(&self) -> bool
        ensures { IsTrue result ↔ (self.now ≡ []) }
    {
        self.rules.is_empty()
    }

    /// Tells one more violation. At a path that has one already, the rule that counts stays.
    pub fn tell(&mut self, path: Text, rule: Rule) -> Result<(), NoMemory>
        ensures ok { OnOk result (self.new ≡ tell self.old (path, rule)) }
    {
        let rule = self.counted(&path, rule);
        self.rules.insert(path, rule)?;
        Ok(())
    }

    // The rule that counts at a path, where one more is told there.
    fn counted(&self, path: &Text, rule: Rule) -> Rule
        ensures { result ≡ counted self.now path.now rule }
    {
        match self.rules.get(path) {
            Some(told) => first(*told, rule),
            None => rule,
        }
    }

    /// The violations in byte order of their paths.
    pub fn into_list(self, alloc: Global) -> Result<List<Broken>, NoMemory>
        ensures { IfOk result (λ broken. broken ≡ listed self) }
    {
        let mut broken = List::new(alloc);
        for (path, rule) in self.rules {
            broken.push(Broken { path, rule })?;
        }
        Ok(broken)
    }
}
