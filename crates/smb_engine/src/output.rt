//! What the share puts out, and where it goes.

ghost use Rattle.std.specs.Prelude.{◌≡◌, ◌++◌, ◌∷◌, [], OnOk, OnErr, length, take, List, ℕ};
ghost use Rattle.std.specs.List.{flat_map};
ghost use Rattle.smb_engine.specs.Output.{output_bytes, end_of, reply_frame};

use super::unsealed::Unsealed;
use smb_peers::Answer;
use std::alloc::{AllocError, Global};
use std::mem;

/// Where the outputs of a piece go: answers in order, or the bytes of one connection's frames.
///
/// A frame is written into a vector that the sink hands out, behind what it holds, and is given back with it: the
/// bytes of one connection are written straight where they are sent from, and an answer's into a vector of its own.
pub(crate) trait Sink {
    ghost use Rattle.std.specs.Prelude.{ℕ, List};
    ghost use Rattle.smb_engine.specs.Output.{Output};
    ghost use Rattle.smb_engine.specs.Sink.{Heard};

    ghost content: { Self → List Heard };

    ghost hears: { Output → List Heard };

    /// What the sink holds, with the vector that was lent out, which holds these bytes.
    ghost with_bytes: { Self → List ℕ → List Heard };

    /// A vector was lent out with these bytes.
    ghost lends: { Self → List ℕ → Type 0 };

    /// How much the sink holds.
    fn mark(&self) -> usize
        ensures { result ≡ length (content self.now) };

    /// Hands out the vector for a frame, with the bytes that it holds. It takes no memory.
    fn take_bytes(&mut self, alloc: Global) -> Unsealed
        ensures lent { lends self.new result }
        ensures content { with_bytes self.new result ≡ content self.old };

    /// Takes the vector back with the frame of a payload's replies behind what it held, where there are any.
    fn give_frame(&mut self, connection: u64, bytes: Unsealed) -> Result<(), AllocError>
        ensures ok { (before replies : List ℕ) → lends self.old before → bytes ≡ before ++ flat_map output_bytes (reply_frame connection replies) →
            OnOk result (content self.new ≡ with_bytes self.old before ++ flat_map hears (reply_frame connection replies)) }
        ensures err { (before : List ℕ) → lends self.old before → OnErr result (content self.new ≡ with_bytes self.old before) };

    /// Takes the vector back as it was lent out.
    fn give_back(&mut self, bytes: Unsealed)
        ensures { (before : List ℕ) → lends self.old before → bytes ≡ before → content self.new ≡ with_bytes self.old before };

    /// Adds the end of a connection.
    fn put_end(&mut self, connection: u64) -> Result<(), AllocError>
        ensures ok { OnOk result (content self.new ≡ content self.old ++ flat_map hears (end_of connection ∷ [])) }
        ensures kept { take (length (content self.old)) (content self.new) ≡ content self.old };

    /// Takes off what came after a mark.
    fn cut_back(&mut self, mark: usize)
        ensures { content self.new ≡ take mark (content self.old) };
}

impl Sink for Vec<Answer> {
    ghost use Rattle.std.specs.Prelude.{map, ◌≡◌, []};
    ghost use Rattle.smb_engine.specs.Output.{outputs_of};
    ghost use Rattle.smb_engine.specs.Sink.{whole, hears_whole};

    ghost content = { λ answers. map whole (outputs_of answers.items) };

    ghost hears = { hears_whole };

    ghost with_bytes = { λ answers bytes. map whole (outputs_of answers.items) };

    ghost lends = { λ answers bytes. bytes ≡ [] };

    fn mark(&self) -> usize {
        self.len()
    }

    fn take_bytes(&mut self, alloc: Global) -> Unsealed {
        let _ = &self;
        Unsealed::new(Vec::new(alloc))
    }

    fn give_frame(&mut self, connection: u64, bytes: Unsealed) -> Result<(), AllocError> {
        if bytes.len() == 0 {
            return Ok(());
        }
        self.push(Answer::Frame(connection, bytes.into_bytes()))?;
        Ok(())
    }

    fn give_back(&mut self, _bytes: Unsealed) {}

    fn put_end(&mut self, connection: u64) -> Result<(), AllocError> {
        self.push(Answer::End(connection))?;
        Ok(())
    }

    fn cut_back(&mut self, mark: usize) {
        self.truncate(mark);
    }
}

impl Sink for Unsealed {
    ghost use Rattle.std.specs.Prelude.{map, ⊤};
    ghost use Rattle.smb_engine.specs.Sink.{byte, hears_bytes};

    ghost content = { λ bytes. map byte bytes };

    ghost hears = { hears_bytes };

    ghost with_bytes = { λ rest bytes. map byte bytes };

    ghost lends = { λ rest bytes. ⊤ };

    fn mark(&self) -> usize {
        self.len()
    }

    fn take_bytes(&mut self, alloc: Global) -> Unsealed {
        mem::replace(self, Unsealed::new(Vec::new(alloc)))
    }

    fn give_frame(&mut self, _connection: u64, bytes: Unsealed) -> Result<(), AllocError> {
        *self = bytes;
        Ok(())
    }

    fn give_back(&mut self, bytes: Unsealed) {
        *self = bytes;
    }

    fn put_end(&mut self, _connection: u64) -> Result<(), AllocError> {
        Ok(())
    }

    fn cut_back(&mut self, mark: usize) {
        self.truncate(mark);
    }
}
