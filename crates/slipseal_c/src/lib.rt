// The functions for C: each calls the library's function of the same name, under the same clauses. C callers have them as
// include/slipseal.h declares them, in the archive libslipseal.a that bindings/build makes. Names and clauses stand twice, for no crate can
// stand on a static library.
#![tactic(auto)]

ghost use Rattle.std.specs.Prelude.{◌≡◌};
ghost use Rattle.tag.specs.OneCall.{make_of, check_of};
ghost use Rattle.tag.specs.Restore.{restore_of};
ghost use Rattle.session.specs.Calls.{start_of, start_check_of, piece_of, finish_of, finish_check_of};
ghost use Rattle.slip.specs.Slip.{read_of};
ghost use Rattle.slip.specs.Gathering.{held, add_of};
ghost use Rattle.slip.specs.Printed.{write_of};
ghost use Rattle.writing.specs.Writing.{said};
ghost use Rattle.slipseal.specs.Border.{agreed_of, told_of, told_make, told_restored, told_slip, told_write, inward, handed_out, handed_back, finished_back};

use slipseal::{Agreement, Answer, Session, Slip, Step, Written};

#[unsafe(no_mangle)]
pub extern "C" fn slipseal_make(
    agreement: Agreement,
    keys: &[u8],
    message: &[u8],
    bits: usize,
    room: &mut [u8],
) -> Answer
    ensures { (result, room.new) ≡ told_make (make_of (agreed_of agreement) keys.now message.now bits room.old) }
{
    slipseal::slipseal_make(agreement, keys, message, bits, room)
}

#[unsafe(no_mangle)]
pub extern "C" fn slipseal_check(
    agreement: Agreement,
    keys: &[u8],
    message: &[u8],
    bits: usize,
    offered: &[u8],
) -> Answer
    ensures { result ≡ told_of (check_of (agreed_of agreement) keys.now message.now bits offered.now) }
{
    slipseal::slipseal_check(agreement, keys, message, bits, offered)
}

#[unsafe(no_mangle)]
pub extern "C" fn slipseal_restore(
    agreement: Agreement,
    keys: &[u8],
    message: &mut [u8],
    bits: usize,
    block: usize,
    offered: &[u8],
) -> usize
    ensures { (result, message.new) ≡ told_restored (restore_of (agreed_of agreement) keys.now message.old bits block offered.now) }
{
    slipseal::slipseal_restore(agreement, keys, message, bits, block, offered)
}

#[unsafe(no_mangle)]
pub extern "C" fn slipseal_start(agreement: Agreement, keys: &[u8], declared: usize) -> Step
    ensures { result ≡ handed_out (start_of (agreed_of agreement) keys.now declared) }
{
    slipseal::slipseal_start(agreement, keys, declared)
}

#[unsafe(no_mangle)]
pub extern "C" fn slipseal_start_check(
    agreement: Agreement,
    keys: &[u8],
    declared: usize,
    tag: &[u8],
) -> Step
    ensures { result ≡ handed_out (start_check_of (agreed_of agreement) keys.now declared tag.now) }
{
    slipseal::slipseal_start_check(agreement, keys, declared, tag)
}

#[unsafe(no_mangle)]
pub extern "C" fn slipseal_piece(came: Session, bytes: &[u8], bits: usize) -> Step
    ensures { result ≡ handed_back came (piece_of (inward came) bytes.now bits) }
{
    slipseal::slipseal_piece(came, bytes, bits)
}

#[unsafe(no_mangle)]
pub extern "C" fn slipseal_finish(came: Session, room: &mut [u8]) -> Step
    ensures { (result, room.new) ≡ finished_back came (finish_of (inward came) room.old) }
{
    slipseal::slipseal_finish(came, room)
}

#[unsafe(no_mangle)]
pub extern "C" fn slipseal_finish_check(came: Session) -> Step
    ensures { result ≡ handed_back came (finish_check_of (inward came)) }
{
    slipseal::slipseal_finish_check(came)
}

#[unsafe(no_mangle)]
pub extern "C" fn slipseal_read(agreement: Agreement, keys: &[u8], slip: &[u8]) -> Slip
    ensures { result ≡ told_slip (read_of (agreed_of agreement) keys.now slip.now) }
{
    slipseal::slipseal_read(agreement, keys, slip)
}

#[unsafe(no_mangle)]
pub extern "C" fn slipseal_gather(came: slip::Gathered, bytes: &[u8]) -> slip::Gathered
    ensures { result ≡ add_of came bytes.now }
{
    slipseal::slipseal_gather(came, bytes)
}

#[unsafe(no_mangle)]
pub extern "C" fn slipseal_read_gathered(
    agreement: Agreement,
    keys: &[u8],
    came: slip::Gathered,
) -> Slip
    ensures { result ≡ told_slip (read_of (agreed_of agreement) keys.now (held came)) }
{
    slipseal::slipseal_read_gathered(agreement, keys, came)
}

#[unsafe(no_mangle)]
pub extern "C" fn slipseal_write(
    agreement: Agreement,
    keys: &[u8],
    year: usize,
    month: usize,
    day: usize,
    lot: &[u8],
    amount: usize,
    room: &mut [u8],
) -> Written
    ensures { (result, room.new) ≡ told_write (write_of (agreed_of agreement) keys.now (said year month day lot.now amount) room.old) }
{
    slipseal::slipseal_write(agreement, keys, year, month, day, lot, amount, room)
}
