// The C side: entries over the bytes of a text, each answering one packed number. include/trestulan.h declares them.
#![tactic(auto)]

pub mod packing;

ghost use Rattle.std.specs.Prelude.{◌≡◌};
ghost use Rattle.importer.specs.Entries.{CheckAnswers, evaluate_number, ListAnswers, ReadAnswers, name_number};

use evaluate::evaluate;
use guard_check::check::check;
use list::list;
use packing::Packed;
use reading::name::name;
use reading::read::read;

// The verdict on a text at a depth.
#[unsafe(no_mangle)]
pub extern "C" fn trestulan_check(text: &[u8], depth: u64) -> u64
    ensures { CheckAnswers text.now depth result }
{
    let verdict = check(text, depth);
    verdict.packed()
}

// The value of a text's guard in a state.
#[unsafe(no_mangle)]
pub extern "C" fn trestulan_evaluate(text: &[u8], state: u64) -> u64
    ensures { result ≡ evaluate_number text.now state }
{
    let evaluation = evaluate(text, state);
    evaluation.packed()
}

// Writes the gaps of a text from `start` on, ascending, as many as there is room for.
#[unsafe(no_mangle)]
pub extern "C" fn trestulan_list(text: &[u8], start: u64, out: &mut [u32]) -> u64
    ensures { ListAnswers text.now start out.old result out.new }
{
    let listing = list(text, start, out);
    listing.packed()
}

// Writes kind, y and z of each triplet of a text's guard.
#[unsafe(no_mangle)]
pub extern "C" fn trestulan_read(text: &[u8], room: &mut [u16]) -> u64
    ensures { ReadAnswers text.now room.old result room.new }
{
    let parsed = read(text, room);
    parsed.packed()
}

// Where flag i of a text's guard, counted from 1, first stands.
#[unsafe(no_mangle)]
pub extern "C" fn trestulan_name(text: &[u8], i: u64) -> u64
    ensures { result ≡ name_number text.now i }
{
    let named = name(text, i);
    named.packed()
}
