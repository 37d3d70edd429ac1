//! What a session asked and was answered.

ghost use Rattle.std.specs.Prelude.{◌≡◌, ◌+◌, [], ◌∷◌, ◌++◌, length, IfOk, OnOk};
ghost use Rattle.ebr_session.specs.inside.Kept.{HasRoom};

use ebr_asks::Exchange;
use ebr_base::NoMemory;
use std::alloc::Global;
use std::marker::Model;

/// The exchanges of a session, in order.
#[derive(Drop)]
pub struct Transcript {
    exchanges: Vec<Exchange>,
}

impl Model for Transcript {
    ghost use Rattle.std.specs.Prelude.{vec_capacity};
    ghost use Rattle.std.specs.Coded.{codes};
    ghost use Rattle.ebr_asks.specs.contracts.entry.Exchange as x;
    ghost use Rattle.ebr_session.specs.inside.Kept.{Kept};

    ghost Value = { Kept };

    ghost coded = { Prim.hlevel (codes, x.the_row.coded) };

    ghost view = { λ t. record { exchanges = t.exchanges.items; room = vec_capacity t.exchanges } };
}

impl Transcript {
    /// No exchanges, with room for one.
    #[tactic(auto, unfolding(crate::specs::inside::Kept::HasRoom))]
    pub fn new(alloc: Global) -> Result<Transcript, NoMemory>
        ensures none { IfOk result (λ t. t.exchanges ≡ []) }
        ensures room { IfOk result (λ t. HasRoom 1 t) }
    {
        let mut exchanges = Vec::new(alloc);
        exchanges.reserve(1)?;
        Ok(Transcript { exchanges })
    }

    /// Makes room for two more exchanges.
    #[tactic(auto, unfolding(crate::specs::inside::Kept::HasRoom))]
    pub fn reserve(&mut self) -> Result<(), NoMemory>
        ensures room { OnOk result (HasRoom 2 self.new) }
        ensures kept { HasRoom 1 self.old → HasRoom 1 self.new }
        ensures same { self.new.exchanges ≡ self.old.exchanges }
    {
        self.exchanges.reserve(2)?;
        Ok(())
    }

    /// Adds an exchange, for which there is room.
    #[tactic(auto, unfolding(crate::specs::inside::Kept::HasRoom))]
    pub fn push(&mut self, exchange: Exchange)
        requires room { HasRoom 1 self.old }
        ensures more { self.new.exchanges ≡ self.old.exchanges ++ exchange ∷ [] }
        ensures left { HasRoom 2 self.old → HasRoom 1 self.new }
    {
        self.exchanges.push_reserved(exchange);
    }

    /// The exchanges.
    pub fn as_slice(&self) -> &[Exchange]
        ensures { result.now ≡ self.now.exchanges }
    {
        self.exchanges.as_slice()
    }

    /// How many there are.
    pub fn len(&self) -> usize
        ensures { result ≡ length self.now.exchanges }
    {
        self.exchanges.len()
    }
}
