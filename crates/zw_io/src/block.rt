// The bytes taken from a source and not yet given.
ghost use Rattle.std.specs.Prelude.{◌≡◌, ◌≤◌, ◌<◌, ◌∷◌, [], length, ◌≢◌, IfOk, OnOk, OnErr, IfSome, IsTrue, ◌↔◌, take};
ghost use Rattle.zw_def.specs.Told.{HasCause, held_then};

use crate::{Failed, Source};
use std::marker::Model;

/// How many bytes one call of the source is asked for.
pub const BLOCK: usize = 4096;

/// Bytes that were taken from a source and not yet given.
#[derive(Drop)]
pub struct Block {
    cells: [u8; BLOCK],
    at: usize,
    end: usize,
}

impl Model for Block {
    ghost use Rattle.std.specs.Prelude.{◌≡◌, ◌≤◌, ◌-◌, List, ℕ, length, take, drop};

    ghost Value = { List ℕ };

    ghost view = { λ b. take (b.end - b.at) (drop b.at b.cells) };

    ghost invariant = { λ b. (length b.cells ≡ 4096) × (b.at ≤ b.end) × (b.end ≤ 4096) };
}

impl Block {
    /// A block that holds no bytes.
    pub fn new() -> Block
        ensures { result ≡ [] }
    {
        Block {
            cells: [0; BLOCK],
            at: 0,
            end: 0,
        }
    }

    /// Whether it holds no bytes.
    pub fn is_empty(&self) -> bool
        ensures { IsTrue result ↔ (self.now ≡ []) }
    {
        self.at == self.end
    }

    /// Takes the next byte.
    pub fn pop(&mut self) -> u8
        requires { self.old ≢ [] }
        ensures { self.old ≡ result ∷ self.new }
    {
        let byte = self.cells[self.at];
        self.at += 1;
        byte
    }

    /// Takes at most this many bytes from a source, where none is left here.
    pub fn fill<S: Source>(&mut self, source: &mut S, most: usize) -> Result<(), Failed>
        requires { self.old ≡ [] }
        ensures same { held_then self.new (S.left source.new) ≡ held_then self.old (S.left source.old) }
        ensures within { length self.new ≤ most }
        ensures end { OnOk result (IfSome (S.left source.old) (λ bytes. 0 < most → self.new ≡ [] → bytes ≡ [])) }
        ensures err { OnErr result (self.new ≡ []) }
        ensures cause { HasCause (S.faults source.old) (S.faults source.new) result }
    {
        self.at = 0;
        self.end = 0;
        let got = take_front(source, &mut self.cells, most)?;
        self.end = got;
        Ok(())
    }
}

// Reads into the front of the cells.
fn take_front<S: Source>(source: &mut S, cells: &mut [u8], most: usize) -> Result<usize, Failed>
    requires { length cells.old ≡ 4096 }
    ensures within { IfOk result (λ n. (n ≤ most) × (n ≤ 4096)) }
    ensures same { IfOk result (λ n. held_then (take n cells.new) (S.left source.new) ≡ S.left source.old) }
    ensures end { IfOk result (λ n. IfSome (S.left source.old) (λ bytes. 0 < most → n ≡ 0 → bytes ≡ [])) }
    ensures err { OnErr result (S.left source.new ≡ S.left source.old) }
    ensures cause { HasCause (S.faults source.old) (S.faults source.new) result }
{
    let ask = most.min(BLOCK);
    source.read(&mut cells[..ask])
}
