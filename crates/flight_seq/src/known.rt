ghost use Rattle.std.specs.Prelude.{◌≡◌, IfOk};
ghost use Rattle.flight_seq.specs.Held.{end_for, known_end};

use crate::copy::copy_tree;
use crate::held::End;
use flight_eval::Gave;
use flight_value::{List, Made, Memory, Shared, Tables};

/// What is known of the body at an address.
#[derive(Drop)]
pub enum Known {
    /// It finished.
    Finished {
        /// The nodes that it made.
        made: Shared<List<Made>>,
        /// The tables of the server elements that it made: those of its address, and these nodes.
        inside: Shared<Tables>,
        gave: Gave,
        cost: u32,
    },
    /// It waits for a source that is not settled.
    Waits {
        source: u32,
    },
}

impl Known {
    /// How the body ends.
    pub fn end(&self) -> Result<End, Memory>
        ensures { IfOk result (λ e. end_for e ≡ known_end self.now) }
    {
        match self {
            Known::Finished {
                gave: Gave::Tree(tree),
                ..
            } => Ok(End::Gave(copy_tree(tree)?)),
            Known::Finished {
                gave: Gave::Threw(digest),
                ..
            } => Ok(End::Threw(digest.clone()?)),
            Known::Waits { source } => Ok(End::Waits { source: *source }),
        }
    }
}
