// The cases, as they stand in the input.
ghost use Rattle.std.specs.Prelude.{◌<◌, length, IfSome};

#[derive(Clone, Copy)]
pub(crate) struct Case<'a> {
    pub(crate) name: &'a [u8],
    pub(crate) table: &'a [u8],
    pub(crate) list: &'a [u8],
    pub(crate) registers: &'a [u8],
    pub(crate) memory: &'a [u8],
    pub(crate) room: u8,
}

// The part that s starts with, and what follows it. None where s ends inside it.
fn part(s: &[u8]) -> Option<(&[u8], &[u8])>
    ensures { IfSome result (λ p. length p.1.now < length s.now) }
{
    let (length, rest) = s.split_first_chunk()?;
    rest.split_at_checked(usize::from(u16::from_le_bytes(*length)))
}

impl<'a> Case<'a> {
    // The case that s starts with, and what follows it. None where s ends inside it.
    pub(crate) fn first(s: &'a [u8]) -> Option<(Case<'a>, &'a [u8])>
        ensures { IfSome result (λ p. length p.1.now < length s.now) }
    {
        let (name, rest) = part(s)?;
        let (table, rest) = part(rest)?;
        let (list, rest) = part(rest)?;
        let (registers, rest) = part(rest)?;
        let (memory, rest) = part(rest)?;
        let (room, rest) = rest.split_first()?;
        let case = Case {
            name,
            table,
            list,
            registers,
            memory,
            room: *room,
        };
        Some((case, rest))
    }
}
