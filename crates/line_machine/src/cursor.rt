// The rows of a program, one after the other.
ghost use Rattle.std.specs.Prelude.{◌≡◌, ◌<◌, ◌+◌, ◌^◌, ℕ, List, length, Option, Some, None, Err, IfOk, IfErr, IfSome};
ghost use Rattle.line_machine.specs.Heads.{IsHead};
ghost use Rattle.line_machine.specs.Faults.{OpcodesFault};
ghost use Rattle.dw_base.specs.Refusals.{IsFaultOf};
ghost use Rattle.line_machine.specs.Cursors.{Stands, Answers, NextFault, at_start};

use crate::head::Head;
use crate::place::{Place, next_row};
use crate::registers::Row;
use dw_base::Fault;
use std::marker::Model;

/// A reader of the rows of a line number program, one after the other. It holds no bytes of the program.
#[derive(Drop)]
pub struct Cursor {
    head: Head,
    origin: u64,
    place: Place,
    stopped: Option<Fault>,
}

impl Model for Cursor {
    ghost use Rattle.line_machine.specs.Cursors.{Progress, IsNear};

    ghost Value = { Progress };

    ghost view = { λ c. record { head = c.head; origin = c.origin; place = c.place; stopped = c.stopped } };

    ghost invariant = { λ c. IsNear c.place.at c.place.registers.line };
}

impl Cursor {
    /// A cursor before the first opcode of the program of `head`. `origin` is the file offset of the first
    /// byte of the section from which the head was read.
    pub fn new(head: &Head, origin: u64) -> Cursor
        ensures head { result.head ≡ head.now }
        ensures origin { result.origin ≡ origin }
        ensures start { result.place ≡ at_start head.now }
        ensures going { result.stopped ≡ None }
        ensures stands { (section : List ℕ) → IsHead section head.now → Stands section result }
    {
        Cursor {
            head: *head,
            origin,
            place: Place::start(head.stmt),
            stopped: None,
        }
    }

    /// The next row of the program, or `None` at its end (DWARF 5 section 6.2). `section` has the same
    /// bytes at every call: those from which the head was read.
    ///
    /// `None` comes exactly at the end of a program that has no row or whose last row ends a sequence. A fault
    /// that stands before the next row, or before the program's end, is answered instead, and after that each call
    /// answers the same fault, and the cursor stays where it is:
    /// - `Short`: an opcode or its operand ends past the program; at the extended opcode that does, or else at the
    ///   LEB128 or the number that does.
    /// - `LebWide`: a LEB128 doesn't fit 64 bits; at its first byte.
    /// - `LineOp`: an extended opcode has the length 0, has a code that isn't 1, 2 or 4, or its length isn't that of
    ///   its code and operand (DWARF 5 section 6.2.5.3); at its byte 0.
    /// - `LineValue`: a row's line is below 0 or 2^32 or more, or the product of an advance_pc 2^64 or more; at
    ///   the opcode.
    /// - `OpenSequence`: the program ends, and its last row doesn't end a sequence; at the program's unit.
    ///
    /// No memory.
    pub fn next(&mut self, section: &[u8]) -> Result<Option<Row>, Fault>
        requires stands { Stands section.now self.old }
        requires room { self.old.origin + length section.now < 2 ^ 64 }
        ensures stands { Stands section.now self.new }
        ensures head { self.new.head ≡ self.old.head }
        ensures origin { self.new.origin ≡ self.old.origin }
        ensures row { IfOk result (λ row. Answers section.now self.old self.new row) }
        ensures going { IfOk result (λ _. (self.old.stopped ≡ None) × (self.new.stopped ≡ None)) }
        ensures fault { IfErr result (IsFaultOf (OpcodesFault section.now self.old.head) self.old.origin) }
        ensures reached { IfErr result (λ fault. self.old.stopped ≡ None → IsFaultOf (NextFault section.now self.old.head self.old.place) self.old.origin fault) }
        ensures stopped { IfErr result (λ fault. self.new.stopped ≡ Some fault) }
        ensures stays { IfErr result (λ _. self.new.place ≡ self.old.place) }
        ensures again { IfSome self.old.stopped (λ fault. (result ≡ Err fault) × (self.new ≡ self.old)) }
    {
        if let Some(fault) = self.stopped {
            return Err(fault);
        }
        match next_row(section, &self.head, self.origin, self.place) {
            Ok(step) => {
                self.place = step.place;
                Ok(step.row)
            }
            Err(fault) => {
                self.stopped = Some(fault);
                Err(fault)
            }
        }
    }
}
