// Reading a checked book: the items of a record one after the other.
#![tactic(auto)]

ghost use Rattle.std.specs.Prelude.{◌≡◌, ◌-◌, length, drop};
ghost use Rattle.std.specs.Iterator.{at_most, item_count, YieldsFirst};
ghost use Rattle.text.specs.Text.{some_of};
ghost use Rattle.book.specs.Command.{decode};
ghost use Rattle.book.specs.Record.{is};
ghost use Rattle.book.specs.Index.{record_at};
ghost use Rattle.items.specs.Items.{item_of, option_item, target_item};
ghost use Rattle.items.specs.Runs.{commands_left, NextTarget};

use book::{Cmd, END, TARGET, command_at};

// The commands from an offset on and before the record's END, each with the offset after it. All commands and the offset, here and in `record`, and not the rest
// of them: offsets are what an index and a refusal tell.
#[derive(Clone, Copy)]
pub struct Commands<'a> {
    pub commands: &'a [u8],
    pub at: usize,
}

impl<'a> Iterator for Commands<'a> {
    type Item = (Cmd, usize);

    ghost next_gives = { YieldsFirst commands_left };

    ghost remaining = { item_count commands_left };

    fn next(&mut self) -> Option<(Cmd, usize)> {
        match command_at(self.commands, self.at) {
            Ok((c, next)) if c.op != END => {
                self.at = next;
                Some((c, next))
            }
            _ => None,
        }
    }
}

// The first command with the byte op, from the offset on and before the record's END, and the offset after it.
pub fn next_item(commands: &[u8], at: usize, op: u8) -> Option<(Cmd, usize)>
    ensures { result ≡ item_of op (decode 0 at (drop at commands.now)) }
{
    Commands { commands, at }.find(|(c, _)| c.op == op)
}

// The command at the offset, if it is a target, and the offset after it.
pub fn next_target(commands: &[u8], at: usize) -> Option<(Cmd, usize)>
    ensures { result ≡ target_item (decode 0 at (drop at commands.now)) }
{
    match command_at(commands, at) {
        Ok((c, next)) if c.op == TARGET => Some((c, next)),
        _ => None,
    }
}

// The targets that stand at an offset, each with the offset after it. Nothing above goes over them so, since `record` has them as texts: it stays with its edit.
#[derive(Clone, Copy)]
pub struct Targets<'a> {
    pub commands: &'a [u8],
    pub at: usize,
}

impl<'a> Iterator for Targets<'a> {
    type Item = (Cmd, usize);

    ghost next_gives = { NextTarget };

    ghost remaining = { λ s. at_most (length s.commands.now - s.at) };

    fn next(&mut self) -> Option<(Cmd, usize)> {
        let target = next_target(self.commands, self.at)?;
        self.at = target.1;
        Some(target)
    }
}

// The first command with the byte op and the id, from the offset on and before the record's END, and the offset after it.
pub fn next_option(commands: &[u8], at: usize, op: u8, id: u8) -> Option<(Cmd, usize)>
    ensures { result ≡ option_item op id (decode 0 at (drop at commands.now)) }
{
    Commands { commands, at }.find(|(c, _)| c.op == op && c.id == id)
}

// Whether a command with the byte op stands from the offset on and before the record's END. Nothing above asks it: it stays with its edit.
pub fn is_named(commands: &[u8], at: usize, op: u8) -> bool
    ensures { result ≡ some_of (is op) (record_at commands.now at) }
{
    next_item(commands, at, op).is_some()
}
