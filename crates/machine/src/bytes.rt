// Directives read from bytes, observations written as bytes.
ghost use Rattle.std.specs.Prelude.{◌≡◌, ◌+◌, ◌<◌, ◌≤◌, length};
ghost use Rattle.std.proofs.lemmas.List.Edits.{sets};
ghost use Rattle.machine.specs.Directives.{branch_at, stray_at, back_at, directive_at, list_at, bytes_of};
ghost use Rattle.model.specs.Machine.{size};

use format::place_at;
use model::{Directive, Fault, Observation, Refusal};

// The directive at `at`, and the place after it; nothing where a bad one stands there.
#[tactic(auto, unfolding(crate::specs::Directives::directive_at))]
pub(crate) fn directive_at(d: &[u8], at: usize) -> Option<(Directive, usize)>
    requires { at < length d.now }
    ensures { result ≡ directive_at d.now at }
{
    match d[at] {
        0x60 => Some((Directive::Plain, at + 1)),
        0x61 => branch_at(d, at),
        0x62 => stray_at(d, at),
        0x63 => back_at(d, at),
        _ => None,
    }
}

#[tactic(auto, unfolding(crate::specs::Directives::branch_at))]
fn branch_at(d: &[u8], at: usize) -> Option<(Directive, usize)>
    requires { at < length d.now }
    ensures { result ≡ branch_at d.now at }
{
    let way = *d.get(at + 1)?;
    if 2 <= way {
        return None;
    }
    Some((Directive::Branch(way == 1), at + 2))
}

#[tactic(auto, unfolding(crate::specs::Directives::stray_at))]
fn stray_at(d: &[u8], at: usize) -> Option<(Directive, usize)>
    requires { at < length d.now }
    ensures { result ≡ stray_at d.now at }
{
    if d.len() - at < 4 {
        return None;
    }
    Some((Directive::Stray(d[at + 1], place_at(d, at + 2)), at + 4))
}

#[tactic(auto, unfolding(crate::specs::Directives::back_at))]
fn back_at(d: &[u8], at: usize) -> Option<(Directive, usize)>
    requires { at < length d.now }
    ensures { result ≡ back_at d.now at }
{
    if d.len() - at < 3 {
        return None;
    }
    Some((Directive::Back(place_at(d, at + 1)), at + 3))
}

// The whole list, before the first step: too long, or a bad directive, is 16.
pub(crate) fn list_fault(d: &[u8]) -> Result<(), Refusal>
    ensures { result ≡ list_at d.now }
{
    if 16384 < d.len() {
        return Err(Fault::BadList.at(0));
    }
    let mut at = 0;
    while at < d.len() {
        let Some((_, next)) = directive_at(d, at) else {
            return Err(Fault::BadList.at(at));
        };
        at = next;
    }
    Ok(())
}

// How many bytes an observation takes.
pub(crate) fn size_of(o: Observation) -> usize
    ensures { (result ≡ size o) × (result ≤ 6) }
{
    match o {
        Observation::Nothing => 1,
        Observation::Way(_) => 2,
        Observation::Address(..) => 6,
    }
}

// An observation's bytes, where there is room for them.
pub(crate) fn put_observation(s: &mut [u8], at: usize, o: Observation)
    requires { at + size o ≤ length s.old }
    ensures { s.new ≡ sets s.old at (bytes_of o) }
{
    match o {
        Observation::Nothing => s[at] = 0x70,
        Observation::Way(b) => {
            s[at] = 0x71;
            s[at + 1] = u8::from(b);
        }
        Observation::Address(a, i) => {
            s[at] = 0x72;
            s[at + 1] = a;
            s[at + 2..at + 6].copy_from_slice(&i.to_le_bytes());
        }
    }
}
