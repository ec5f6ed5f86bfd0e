// RETURN: to the top of the stack, or astray to a place that follows a CALL of the function.
ghost use Rattle.std.specs.Prelude.{◌≡◌};
ghost use Rattle.format.specs.Layout.{start_of};
ghost use Rattle.machine.specs.Plans.{table_at, ctl_at, data_at, planned, lands_in};
ghost use Rattle.machine.specs.States.{table_in, tops};
ghost use Rattle.model.specs.InOrder.{code};
ghost use Rattle.model.specs.Machine.{right, wrong, pop, back};
ghost use Rattle.model.specs.Sites.{home_of, mark_in, mark_of, site};

use crate::{Effect, Next, Plan, Stacking, Step};
use layout::Table;
use model::{Directive, Observation, Record, Stop};

// The function that a place lies in.
#[tactic(auto, using(crate::proofs::Planning::homes))]
fn home(table: &Table, p: usize) -> u8
    ensures { result ≡ home_of (start_of table.now.sizes table.now.bytes.now) table.now.sizes.functions p }
{
    for f in (0..table.sizes.functions).rev() {
        if table.start_of(f) <= p {
            return f;
        }
    }
    0
}

// The mark, if the record is a CALL of the function.
fn mark_of(r: Record, function: u8) -> Option<bool>
    ensures { result ≡ mark_of r function }
{
    match r {
        Record::Call { function: g, mark } if g == function => Some(mark),
        _ => None,
    }
}

// The mark of the CALL of a function that q follows: the code is gone through record by record, since its bytes may
// stand inside others too.
fn site_of(table: &Table, function: u8, q: usize) -> Option<bool>
    ensures { result ≡ mark_in (code (table_in table.now)) function q }
{
    let mut c = table.start_of(0);
    while c < table.bytes.len() {
        let here = records::record_at(table, c);
        if q == c + 3 {
            return mark_of(here.record, function);
        }
        c = here.next;
    }
    None
}

impl Step<'_> {
    // The place on top of the stack is q.
    fn top_is(&self, q: usize) -> bool
        ensures { result ≡ tops (ctl_at self.now).stack q }
    {
        let depth = usize::from(self.state.depth);
        if depth == 0 {
            return false;
        }
        usize::from(self.state.stack.get(depth - 1).copied().unwrap_or(0)) == q
    }

    // A wrong return to q: the stack is emptied, and the CALL that is returned to decides about the flag.
    #[tactic(auto, unfolding(model::specs::Sites::site))]
    fn astray(&self, q: usize) -> Result<Plan, Stop>
        ensures plans { planned self.now result
            ≡ wrong (table_at self.now) (site (table_at self.now) (ctl_at self.now).place q) q (data_at self.now) }
        ensures lands { lands_in self.now result }
    {
        let function = home(self.table, self.state.place);
        let mark = site_of(self.table, function, q).ok_or(Stop::NoSuchTarget)?;
        let next = Next {
            place: q,
            stacking: Stacking::Clear,
            mis: true,
            masked: mark || self.state.masked,
        };
        Ok(Plan {
            next,
            effect: Effect::None,
            seen: Observation::Nothing,
        })
    }

    // RETURN to q: the top of the stack first, then the places that follow a CALL of this function.
    pub(crate) fn returning(&self) -> Result<Plan, Stop>
        ensures plans { planned self.now result
            ≡ back (table_at self.now) (ctl_at self.now) self.now.dir (data_at self.now) }
        ensures lands { lands_in self.now result }
    {
        let Directive::Back(q) = self.dir else {
            return Err(Stop::WrongDirective);
        };
        if !self.top_is(q) {
            return self.astray(q);
        }
        let next = Next {
            stacking: Stacking::Pop,
            ..self.at(q)
        };
        Ok(Plan {
            next,
            effect: Effect::None,
            seen: Observation::Nothing,
        })
    }
}
