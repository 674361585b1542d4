// Tables with the entry of one slot exchanged, and whether they are accepted.
ghost use Rattle.std.specs.Prelude.{◌≡◌, ◌+◌, ◌<◌, ◌≤◌};
ghost use Rattle.walks.specs.Graph.{Graph};
ghost use Rattle.walks.specs.Certified.{certified};
ghost use Rattle.walks.specs.Placing.{is_accepted};
ghost use Rattle.certifier.specs.Fits.{TableOf};
ghost use Rattle.placer.specs.Turned.{Written};

use crate::turned::{Entry, Turned};
use certifier::fits::Workspace;
use search::table::Table;

impl Turned {
    // Puts another entry in the place of a slot's, and returns the former one.
    pub(crate) fn put(&mut self, at: usize, entry: Entry) -> Entry
        requires { at + 1 < 1024 }
        ensures written { Written self.old at entry self.new }
        ensures former { Written self.new at result self.old }
    {
        let former = Entry {
            node: self.nodes[at],
            save: self.saves[at],
            start: self.starts[at + 1],
        };
        self.nodes[at] = entry.node;
        self.saves[at] = entry.save;
        self.starts[at + 1] = entry.start;
        former
    }

    // Whether the tables are accepted, of a graph that has no more than so many nodes.
    pub(crate) fn fits(&self, count: usize, budget: u64, on: &mut Workspace) -> bool
        requires { count ≤ 1024 }
        ensures { (g : Graph) → TableOf g self.now.nodes self.now.starts → g.size ≤ count → result ≡ is_accepted (certified g budget) }
    {
        let table = Table {
            nodes: &self.nodes,
            starts: &self.starts[..count],
        };
        on.fits(&table, budget)
    }
}
