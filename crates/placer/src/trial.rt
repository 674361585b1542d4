// A save under trial: while a trial lasts the slot is idle, and at its end its
// former entry is back.
ghost use Rattle.std.specs.Prelude.{◌≡◌, ℕ, ◌+◌, ◌<◌, ◌≤◌, List};
ghost use Rattle.paths.specs.declared.node.Node.{Node};
ghost use Rattle.paths.specs.Net.{node_at};
ghost use Rattle.walks.specs.Graph.{Graph};
ghost use Rattle.walks.specs.Certified.{certified};
ghost use Rattle.walks.specs.Placing.{is_accepted};
ghost use Rattle.certifier.specs.Fits.{TableOf};
ghost use Rattle.placer.specs.Turned.{Plain, Turns, Written, Settled};

use crate::turned::{Entry, Turned};
use certifier::fits::Workspace;
use paths::node::Node;

struct Trial<'a> {
    turned: &'a mut Turned,
    at: usize,
    former: Entry,
    ghost there: { at + 1 < 1024 },
}

// Whatever way a trial ends, its slot gets its former entry back.
impl Drop for Trial<'_> {
    fn drop(self)
        ensures { Written self.entry.turned.now self.entry.at self.entry.former self.exit.0.now }
    {
        let Trial { turned, at, former } = self;
        turned.put(at, former);
    }
}

impl Trial<'_> {
    fn stands(&self, count: usize, budget: u64, on: &mut Workspace) -> bool
        requires { count ≤ 1024 }
        ensures { (g : Graph) → TableOf g self.now.turned.now.nodes self.now.turned.now.starts → g.size ≤ count → result ≡ is_accepted (certified g budget) }
    {
        self.turned.fits(count, budget, on)
    }
}

// Leaves a slot that is a save idle, if the tables are accepted so.
pub(crate) fn settle_at(
    turned: &mut Turned,
    at: usize,
    plain: Node,
    count: usize,
    budget: u64,
    on: &mut Workspace,
)
    requires here { at < 1024 }
    requires few { count ≤ 1024 }
    ensures { (saving : ℕ) (g : Graph) (nodes : List Node) → Plain saving g nodes → g.size ≤ count → node_at nodes at ≡ plain → Turns saving g nodes turned.old → Settled saving g nodes budget at turned.old turned.new }
{
    if !turned.saves[at] {
        return;
    }
    let idle = Entry {
        node: plain,
        save: false,
        start: false,
    };
    let former = turned.put(at, idle);
    let trial = Trial { turned, at, former };
    let stands = trial.stands(count, budget, on);
    drop(trial);
    if stands {
        turned.put(at, idle);
    }
}
