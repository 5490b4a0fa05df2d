//! The members that choices take, each found once.
ghost use Rattle.std.specs.Prelude.{◌≡◌, ◌<◌, Some, None, IfOk, length, replicate, option_copied, slice_set};
ghost use Rattle.kc_equations.specs.Equation.{taken_at};
ghost use Rattle.kc_solve.specs.Index.{IsIndex};
ghost use Rattle.kc_solve.specs.Taken.{AreTaken};

use crate::index::Index;
use br_path::Memory;
use kc_equations::taken;
use kc_values::Values;
use std::alloc::Global;
use std::marker::Model;

/// The member that each choice takes, by the place of the choice, as far as it is found.
#[derive(Drop)]
pub struct Chosen<'a> {
    found: Vec<Option<Option<&'a [u8]>>>,
}

impl<'a> Model for Chosen<'a> {
    ghost use Rattle.std.specs.Prelude.{map, option_map, option_copied};
    ghost use Rattle.kc_solve.specs.Taken.{Known};

    ghost Value = { Known };

    ghost view = { λ c. map (option_map option_copied) c.found.items };
}

impl<'a> Chosen<'a> {
    /// So many choices of which nothing is found.
    #[tactic(auto, using(crate::proofs::Kept::none_seen))]
    pub fn new(alloc: Global, count: usize) -> Result<Chosen<'a>, Memory>
        ensures { IfOk result (λ chosen. chosen ≡ replicate count None) }
    {
        let mut found = Vec::with_capacity(alloc, count)?;
        for _ in 0..count {
            found.push(None)?;
        }
        Ok(Chosen { found })
    }

    /// The member that the choice at a place takes at some values. It is kept.
    #[tactic(auto, using(crate::proofs::Kept::seen_set))]
    pub fn taken(&mut self, index: &Index<'a>, values: &Values, choice: u32) -> Option<&'a [u8]>
        requires index { IsIndex index.now }
        requires choice { choice < length index.now.menu.now.choices }
        requires known { AreTaken index.now.menu.now index.now.wishes.now values.now self.old }
        ensures member { option_copied result ≡ taken_at index.now.menu.now index.now.wishes.now values.now choice }
        ensures known { self.new ≡ slice_set self.old choice (Some (taken_at index.now.menu.now index.now.wishes.now values.now choice)) }
    {
        let member = self.member(index, values, choice);
        self.found[choice as usize] = Some(member);
        member
    }

    /// The same member, which is looked for where it isn't kept.
    fn member(&self, index: &Index<'a>, values: &Values, choice: u32) -> Option<&'a [u8]>
        requires index { IsIndex index.now }
        requires choice { choice < length index.now.menu.now.choices }
        requires known { AreTaken index.now.menu.now index.now.wishes.now values.now self.now }
        ensures { option_copied result ≡ taken_at index.now.menu.now index.now.wishes.now values.now choice }
    {
        match self.found[choice as usize] {
            Some(member) => member,
            None => member_taken(index, values, choice),
        }
    }
}

/// The member that the choice at a place takes at some values.
#[tactic(auto, unfolding(kc_equations::specs::Equation::choice_at))]
fn member_taken<'a>(index: &Index<'a>, values: &Values, choice: u32) -> Option<&'a [u8]>
    requires index { IsIndex index.now }
    requires choice { choice < length index.now.menu.now.choices }
    ensures { option_copied result ≡ taken_at index.now.menu.now index.now.wishes.now values.now choice }
{
    let members = index.members(choice);
    let choice = &index.menu.choices()[choice as usize];
    taken(values, index.wishes.as_slice(), choice, members)
}
