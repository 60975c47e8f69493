//! The tokens at which the records and enumerations of a module begin.
ghost use Rattle.std.specs.Prelude.{◌≡◌, filter, length, nat_lt, IfOk};

use mesa_types::mesa_base::{Numbers, OutOfMemory};
use std::alloc::Global;
use std::marker::Model;

/// The tokens in the order of the text, and in ascending order, in which they are looked up. In a text both are the same.
#[derive(Drop)]
pub struct Origins {
    tokens: Numbers,
    ascending: Vec<u32>,
}

impl Model for Origins {
    ghost use Rattle.std.specs.Prelude.{List, ℕ};
    ghost use Rattle.check_state.specs.Ascending.{Ascends};

    ghost Value = { List ℕ };

    ghost view = { λ origins. origins.tokens };

    ghost invariant = { λ origins. Ascends origins.tokens origins.ascending.items };
}

impl Origins {
    /// These tokens.
    pub fn of(alloc: Global, tokens: Numbers) -> Result<Origins, OutOfMemory>
        ensures { IfOk result (λ origins. origins ≡ tokens) }
    {
        let mut ascending = Vec::from_slice(alloc, tokens.as_slice())?;
        ascending.sort_unstable();
        Ok(Origins { tokens, ascending })
    }

    /// How many of them stand before this token. Among n it takes log n steps.
    pub fn before(&self, token: u32) -> usize
        ensures { result ≡ length (filter (λ n. nat_lt n token) self.now) }
    {
        self.ascending.as_slice().partition_point(|n| *n < token)
    }
}
