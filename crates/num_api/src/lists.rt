// Lists of messages. Contracts see each as the plain list of its items.

use crate::Message;
use std::alloc::{AllocError as NoMemory, Global};
use std::marker::Model;

/// What a call tells of the valuations behind it.
#[derive(Drop)]
pub struct Messages {
    items: Vec<Message>,
}

impl Model for Messages {
    ghost use Rattle.std.specs.Prelude.{List};
    ghost use Rattle.std.specs.Coded.{codes};
    ghost use Rattle.num_api.specs.declared.message.Message.{Message};
    ghost use Rattle.num_api.specs.contracts.expr.NExpr as exprs;

    ghost Value = { List Message };

    ghost coded = { Prim.hlevel (codes, exprs.the_row.coded) };

    ghost view = { λ l. l.items.items };
}

impl Messages {
    ghost use Rattle.std.specs.Prelude.{◌≡◌, [], ◌∷◌, ◌++◌, OnOk, OnErr};

    /// The list with nothing in it.
    pub fn new(alloc: Global) -> Messages
        ensures { result ≡ [] }
    {
        Messages {
            items: Vec::new(alloc),
        }
    }

    /// The list of these messages.
    pub fn from_vec(items: Vec<Message>) -> Messages
        ensures { result ≡ items.items }
    {
        Messages { items }
    }

    /// The messages, given back without taking memory.
    pub fn into_vec(self) -> Vec<Message>
        ensures { result.items ≡ self }
    {
        let Messages { items } = self;
        items
    }

    /// Puts a message at the end.
    pub fn push(&mut self, message: Message) -> Result<(), NoMemory>
        ensures ok { OnOk result (self.new ≡ self.old ++ message ∷ []) }
        ensures err { OnErr result (self.new ≡ self.old) }
    {
        self.items.push(message)?;
        Ok(())
    }

    /// The messages, in the order in which they came.
    pub fn as_slice(&self) -> &[Message]
        ensures { result.now ≡ self.now }
    {
        self.items.as_slice()
    }
}

/// What holds in every valuation of a state.
#[derive(Drop)]
pub struct NumFacts {
    items: Vec<Message>,
}

impl Model for NumFacts {
    ghost use Rattle.std.specs.Prelude.{List};
    ghost use Rattle.std.specs.Coded.{codes};
    ghost use Rattle.num_api.specs.declared.message.Message.{Message};
    ghost use Rattle.num_api.specs.contracts.expr.NExpr as exprs;

    ghost Value = { List Message };

    ghost coded = { Prim.hlevel (codes, exprs.the_row.coded) };

    ghost view = { λ l. l.items.items };
}

impl NumFacts {
    ghost use Rattle.std.specs.Prelude.{◌≡◌, [], ◌∷◌, ◌++◌, OnOk, OnErr};

    /// The list with nothing in it.
    pub fn new(alloc: Global) -> NumFacts
        ensures { result ≡ [] }
    {
        NumFacts {
            items: Vec::new(alloc),
        }
    }

    /// The list of these messages.
    pub fn from_vec(items: Vec<Message>) -> NumFacts
        ensures { result ≡ items.items }
    {
        NumFacts { items }
    }

    /// The messages, given back without taking memory.
    pub fn into_vec(self) -> Vec<Message>
        ensures { result.items ≡ self }
    {
        let NumFacts { items } = self;
        items
    }

    /// Puts a message at the end.
    pub fn push(&mut self, message: Message) -> Result<(), NoMemory>
        ensures ok { OnOk result (self.new ≡ self.old ++ message ∷ []) }
        ensures err { OnErr result (self.new ≡ self.old) }
    {
        self.items.push(message)?;
        Ok(())
    }

    /// The messages, in the order in which they came.
    pub fn as_slice(&self) -> &[Message]
        ensures { result.now ≡ self.now }
    {
        self.items.as_slice()
    }
}
