ghost use Rattle.std.specs.Prelude.{◌≡◌, ◌+◌, ◌-◌, ◌^◌, ◌<◌, [], ◌∷◌, ◌++◌, length, replicate, if◌then◌else◌, is_ok, OnOk};
ghost use Rattle.bcv_store.specs.Plans.{next_of, rest_of};
ghost use Rattle.bcv_memstore.specs.Planned.{planned_at};
ghost use Rattle.std.specs.VecDeque.{deque_len};

use bcv_base::Outcome;
use std::alloc::{AllocError, Global};
use std::collections::VecDeque;
use std::marker::Model;

/// The outcomes that are planned for the next requests. Contracts see the list of them; after the last one each request
/// is done.
#[derive(Drop)]
pub struct Plan {
    next: Option<Outcome>,
    later: VecDeque<Outcome>,
}

impl Model for Plan {
    ghost use Rattle.std.specs.Prelude.{◌≡◌, List, [], ◌++◌, None};
    ghost use Rattle.std.specs.Option.{option_to_list};
    ghost use Rattle.bcv_base.specs.declared.outcome.Outcome.{Outcome};

    ghost Value = { List Outcome };

    ghost view = { λ p. option_to_list p.next ++ p.later.items };

    ghost invariant = { λ p. p.next ≡ None → p.later.items ≡ [] };
}

impl Plan {
    /// Plans nothing.
    pub fn new(alloc: Global) -> Plan
        ensures { result ≡ [] }
    {
        Plan {
            next: None,
            later: VecDeque::new(alloc),
        }
    }

    /// Sets the outcome of the next request.
    pub fn set_next(&mut self, outcome: Outcome)
        ensures { self.new ≡ outcome ∷ rest_of self.old }
    {
        self.next = Some(outcome);
    }

    /// Sets the outcome of the request after `calls` further ones. Without memory nothing is planned.
    pub fn set(&mut self, calls: u32, outcome: Outcome) -> Result<(), AllocError>
        ensures { self.new ≡ (if is_ok result then planned_at calls outcome self.old
            else self.old) }
    {
        if calls == 0 {
            self.set_next(outcome);
            return Ok(());
        }
        set_at(&mut self.later, calls as usize - 1, outcome)?;
        if self.next.is_none() {
            self.next = Some(Outcome::Ok);
        }
        Ok(())
    }

    /// Takes the outcome of the next request away.
    pub fn take(&mut self) -> Outcome
        ensures outcome { result ≡ next_of self.old }
        ensures rest { self.new ≡ rest_of self.old }
    {
        let outcome = self.next.take().unwrap_or(Outcome::Ok);
        self.next = self.later.pop_front();
        outcome
    }
}

// Sets the outcome at a place, with `Ok` at each place before it that had none.
fn set_at(later: &mut VecDeque<Outcome>, place: usize, outcome: Outcome) -> Result<(), AllocError>
    requires { place < 2 ^ 32 }
    ensures { later.new.items ≡ (if is_ok result then planned_at place outcome later.old.items
        else later.old.items) }
{
    pad(later, place)?;
    later[place] = outcome;
    Ok(())
}

// Adds `Ok` at the end until there is a place of this number.
fn pad(later: &mut VecDeque<Outcome>, place: usize) -> Result<(), AllocError>
    requires { place < 2 ^ 32 }
    ensures padded { later.new.items ≡ (if is_ok result
        then later.old.items ++ replicate (place + 1 - length later.old.items) Outcome.Ok
        else later.old.items) }
    ensures there { OnOk result (place < deque_len later.new) }
{
    if later.len() <= place {
        later.resize(place + 1, Outcome::Ok)?;
    }
    Ok(())
}
