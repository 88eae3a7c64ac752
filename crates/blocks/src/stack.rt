// The value stack of a block. A contract sees its values, the top first.
use chart::blocks::Block;
use std::marker::Model;

#[derive(Drop)]
pub struct Stack {
    cells: [i32; Block::CELLS],
    taken: usize,
}

impl Model for Stack {
    ghost use Rattle.std.specs.Prelude.{◌≤◌};
    ghost use Rattle.rules.specs.Chart.{stack_places};
    ghost use Rattle.rules.specs.Block as rules;
    ghost use Rattle.blocks.specs.Stacks.{stack_of};

    ghost Value = { rules.Stack };

    ghost view = { λ s. stack_of s.cells s.taken };

    ghost invariant = { λ s. s.taken ≤ stack_places };
}

impl Stack {
    ghost use Rattle.std.specs.Prelude.{◌≡◌, [], length};
    ghost use Rattle.std.proofs.Math.ListN as list;
    ghost use Rattle.rules.specs.Block as rules;
    ghost use Rattle.rules.specs.Block.{◌onto◌};

    pub fn new() -> Stack
        ensures { result ≡ [] }
    {
        Stack {
            cells: [0; Block::CELLS],
            taken: 0,
        }
    }

    // The top value, 0 where there is none.
    pub fn top(&self) -> i32
        ensures { result ≡ rules.top self.now }
    {
        if self.taken == 0 {
            return 0;
        }
        self.cells[self.taken - 1]
    }

    // The value below it, 0 where there is none.
    pub fn lower(&self) -> i32
        ensures { result ≡ rules.lower self.now }
    {
        if self.taken < 2 {
            return 0;
        }
        self.cells[self.taken - 2]
    }

    // How many values there are.
    pub fn len(&self) -> usize
        ensures { result ≡ length self.now }
    {
        self.taken
    }

    // So many are taken off the top, all where there are fewer.
    pub fn take_off(&mut self, count: usize)
        ensures { self.new ≡ list.drop count self.old }
    {
        self.taken = self.taken.saturating_sub(count);
    }

    // The top value, 0 where there is none; it is taken off.
    pub fn pop(&mut self) -> i32
        ensures value { result ≡ rules.top self.old }
        ensures rest { self.new ≡ list.drop 1 self.old }
    {
        if self.taken == 0 {
            return 0;
        }
        self.taken -= 1;
        self.cells[self.taken]
    }

    // A value goes on top, where a cell is left.
    pub fn push(&mut self, value: i32)
        ensures { self.new ≡ (value onto self.old) }
    {
        let at = self.taken; // read once, since for the machine a store into the cells could change it
        if at < Block::CELLS {
            self.cells[at] = value;
            self.taken = at + 1;
        }
    }
}
