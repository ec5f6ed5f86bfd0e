// The check, the message and the run for programs in other languages: numbers and lent slices, nothing else. A slice
// is a pointer and a length (bindings/c/likunjavo.h). No function asks anything of what it is lent.
#![tactic(auto)]

ghost use Rattle.std.specs.Prelude.{◌≡◌};
ghost use Rattle.typing.specs.Check.{check_at};
ghost use Rattle.message.specs.Shown.{part_of};
ghost use Rattle.machine.specs.Runs.{run_at};
ghost use Rattle.likunjavo.specs.Numbers.{verdict_numbers, part_numbers, left, left_of};

use message::Part;

// Checks a table. The answer: the fault's number (0: the table passes), its place, and the functions of a table that
// passes.
#[unsafe(no_mangle)]
pub extern "C" fn likunjavo_check(table: &[u8], answer: &mut [u64; 3])
    ensures { answer.new ≡ verdict_numbers (check_at table.now) }
{
    *answer = match typing::check(table) {
        Ok(whole) => [0, 0, u64::from(whole.functions)],
        Err(refusal) => [u64::from(u8::from(refusal.fault)), refusal.place as u64, 0],
    };
}

// The bytes that the message for a number at a place shows. The answer: 0 where they lie in the table, 1 in the list;
// where they begin, and how many they are.
#[unsafe(no_mangle)]
pub extern "C" fn likunjavo_shown(
    table: &[u8],
    list: &[u8],
    number: u8,
    place: usize,
    answer: &mut [u64; 3],
)
    ensures { answer.new ≡ part_numbers (part_of table.now list.now number place) }
{
    *answer = match message::part_of(table, list, number, place) {
        Part::Table(start, count) => [0, start as u64, count as u64],
        Part::List(start, count) => [1, start as u64, count as u64],
    };
}

// Runs a table. The answer: the number of the refusal (1 to 16) or of the stop (20 to 26), the place, the steps taken,
// misspeculating and the flag (1: masked).
#[unsafe(no_mangle)]
pub extern "C" fn likunjavo_run(
    table: &[u8],
    registers: &mut [u32],
    memory: &mut [u32],
    list: &[u8],
    observations: &mut [u8],
    answer: &mut [u64; 5],
)
    ensures { left answer.new registers.new memory.new observations.new
        ≡ left_of (run_at table.now registers.old memory.old list.now observations.old) }
{
    *answer = match machine::run(table, registers, memory, list, observations) {
        Ok(end) => [
            u64::from(u8::from(end.stop)),
            end.place as u64,
            end.steps as u64,
            u64::from(end.mis),
            u64::from(end.masked),
        ],
        Err(refusal) => [
            u64::from(u8::from(refusal.fault)),
            refusal.place as u64,
            0,
            0,
            0,
        ],
    };
}
