// The calls as C makes them: one number comes back.
#![tactic(auto)]

ghost use Rattle.std.specs.Prelude.{◌≡◌, ◌+◌, ◌*◌, ◌≤◌, [], ◌∷◌};
ghost use Rattle.format.specs.Calls as Calls;
ghost use Rattle.format.specs.Edit as Edit;
ghost use Rattle.format.specs.Targets as Targets;
ghost use Rattle.answers.specs.Meet.{answer};
ghost use Rattle.vmti.specs.Meet.{Returns, form_named, holder_named, change_named, change_told, asked_by};

use add_drop::adding::add_target;
use add_drop::dropping::drop_target;
use coding::refusals::Fault;
use edit::edit;
use edit::two::edit_two;
use edit_rules::{Asked, Change};
use normalise::normalise;
use read::read;
use write::write;

// 256 times the place or count, plus the refusal's number.
fn one_number(told: Result<usize, Fault>) -> u64
    requires { ((answer told).number ≤ 20) × ((answer told).place ≤ 65536) }
    ensures { result ≡ 256 * (answer told).place + (answer told).number }
{
    match told {
        Ok(count) => 256 * (count as u64),
        Err(fault) => 256 * (fault.place as u64) + fault.refusal.number(),
    }
}

// Form 0 is embedded, any other number standalone.
#[unsafe(no_mangle)]
pub extern "C" fn vmti_read(form: u64, packet: &[u8], sheet: &mut [u8]) -> u64
    ensures { Returns sheet.old (Calls.read (form_named form) packet.now) result sheet.new }
{
    one_number(read(packet, form != 0, sheet))
}

#[unsafe(no_mangle)]
pub extern "C" fn vmti_write(sheet: &[u8], packet: &mut [u8]) -> u64
    ensures { Returns packet.old (Calls.write sheet.now) result packet.new }
{
    one_number(write(sheet, packet))
}

#[unsafe(no_mangle)]
pub extern "C" fn vmti_normalise(form: u64, packet: &[u8], out: &mut [u8]) -> u64
    ensures { Returns out.old (Calls.normalise (form_named form) packet.now) result out.new }
{
    one_number(normalise(packet, form != 0, out))
}

// Removal 0 is a put, any other number a removal.
fn change(tag: u64, removal: u64) -> Change
    ensures { result ≡ change_told tag removal }
{
    Change {
        tag,
        removal: removal != 0,
    }
}

// Level 0 is the set, any other number the target named.
fn asked(level: u64, target: u64, c: Change) -> Asked
    ensures { result ≡ asked_by level target c }
{
    Asked {
        set: level == 0,
        id: target,
        change: c,
    }
}

#[unsafe(no_mangle)]
pub extern "C" fn vmti_edit(
    form: u64,
    packet: &[u8],
    level: u64,
    target: u64,
    tag: u64,
    removal: u64,
    value: &[u8],
    out: &mut [u8],
) -> u64
    ensures { Returns out.old
        (Edit.edit (form_named form) (holder_named level target) ((tag, change_named removal value.now) ∷ []) packet.now)
        result out.new }
{
    let a = asked(level, target, change(tag, removal));
    one_number(edit(packet, form != 0, a, value, out))
}

// The same with a second change to the target named: first the one, then the other, judged as one.
#[unsafe(no_mangle)]
pub extern "C" fn vmti_edit_two<'a>(
    form: u64,
    packet: &[u8],
    level: u64,
    target: u64,
    tag: u64,
    removal: u64,
    value: &'a [u8],
    tag2: u64,
    removal2: u64,
    value2: &'a [u8],
    out: &mut [u8],
) -> u64
    ensures { Returns out.old
        (Edit.edit (form_named form) (holder_named level target)
        ((tag, change_named removal value.now) ∷ (tag2, change_named removal2 value2.now) ∷ [])
        packet.now)
        result out.new }
{
    let first = asked(level, target, change(tag, removal));
    let second = change(tag2, removal2);
    one_number(edit_two(packet, form != 0, first, second, value, value2, out))
}

// A target added at the series' end: records are one `TG` with its `TI`s.
#[unsafe(no_mangle)]
pub extern "C" fn vmti_add_target(form: u64, packet: &[u8], records: &[u8], out: &mut [u8]) -> u64
    ensures { Returns out.old (Targets.add_target (form_named form) packet.now records.now) result out.new }
{
    one_number(add_target(packet, form != 0, records, out))
}

// The target named dropped, with all its items.
#[unsafe(no_mangle)]
pub extern "C" fn vmti_drop_target(form: u64, packet: &[u8], target: u64, out: &mut [u8]) -> u64
    ensures { Returns out.old (Targets.drop_target (form_named form) packet.now target) result out.new }
{
    one_number(drop_target(packet, form != 0, target, out))
}
