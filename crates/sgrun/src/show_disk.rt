// Shows what the file of a disk holds: one fact a line (docs/SCRIPT.md, "What a file has").
ghost use Rattle.std.specs.Prelude.{◌≡◌, ◌++◌, ◌≤◌, ℕ, [], codes, decimal, false, length, IfErr, IfOk};
ghost use Rattle.std.specs.Prelude.{Some};
ghost use Rattle.std.specs.List.{flat_map};
ghost use Rattle.sg_kept.specs.Opened.{batch_count, opened};
ghost use Rattle.sg_target.specs.Armed.{Armed};
ghost use Rattle.sg_target.specs.Target.{disk_of};
ghost use Rattle.sg_units.specs.ReservationType.{code_of};
ghost use Rattle.sg_wire.specs.Printer.{PrintsText};
ghost use Rattle.sg_wire.specs.Watched.{SendsText, has_failed};
ghost use Rattle.sgrun.specs.ShownDisk.{block_lines, extent_line, facts, flag, hex_line};
ghost use Rattle.sgrun.specs.ShownDisk.{held_reservation_line, holder_text, identity_lines, line};
ghost use Rattle.sgrun.specs.ShownDisk.{name_line, number_line, page_lines, profile_name};
ghost use Rattle.sgrun.specs.ShownDisk.{provisioning_line};
ghost use Rattle.sgrun.specs.ShownDisk.{physical_lines, ports_text, registration_line};
ghost use Rattle.sgrun.specs.ShownDisk.{reservation_line, reservation_lines, run_line, run_lines_from};
ghost use Rattle.sgrun.specs.ShownDisk.{saves_wce, shown_disk, sixteen_digits, size_lines};
ghost use Rattle.sgrun.specs.declared.show_disk.TheConstants.{LONGEST_PAGE};
ghost use Rattle.sgrun.specs.declared.stop.Stop.TheVariants.{Write as WriteFault};

use crate::stop::Stop;
use sg_changes::laws::runs_make_the_disk;
use sg_decode::{GATHERED, put_number};
use sg_journal::Device;
use sg_kept::KeptDisk;
use sg_pages::{Identity, PageValues, PhysicalBlock};
use sg_run::print_faults;
use sg_store::Store;
use sg_store::lba_status::{ProvisioningStatus, StatusDescriptor};
use sg_target::Target;
use sg_units::{Registration, Reservation, ReservationType, Reservations};
use sg_wire::{Initiator, Printer, Profile, Watched};
use std::io;
use std::io::Write;

/// WCE, a bit of byte 2 of the caching mode page (SBC-3, 6.4).
const WCE: u8 = 0x04;

/// The most bytes that a mode page has after its header.
const LONGEST_PAGE: usize = 28;

/// Prints what an opened disk and its file hold. The file has `length` bytes.
///
/// # Errors
/// `Write` if the writer failed: a proper prefix of the text has been written.
pub(crate) fn show_disk<'a, S: Store, D: Device, W: Write>(
    length: u64,
    disk: &mut KeptDisk<S, D>,
    writer: &mut Watched<W>,
) -> Result<(), Stop<'a>>
    requires opened { opened (D.opening disk.old.journal.device) ≡ Some (disk_of disk.old.target) }
    requires batches { batch_count (D.opening disk.old.journal.device) ≡ Some disk.old.found_batches }
    requires writes { has_failed writer.old ≡ false }
    ensures text { (found : Armed) (batches : ℕ)
        → opened (D.opening disk.old.journal.device) ≡ Some found
        → batch_count (D.opening disk.old.journal.device) ≡ Some batches
        → SendsText W.contents writer.old writer.new result (shown_disk length batches found) }
    ensures error { IfErr result (λ stop. stop ≡ WriteFault) }
    ensures file { disk.new.journal ≡ disk.old.journal }
{
    match print_disk(length, disk.found_batches, &mut disk.target, writer) {
        Ok(()) => Ok(()),
        Err(_) => Err(Stop::Write),
    }
}

/// Prints all that a disk holds, in several texts.
fn print_disk<S: Store, W: Write>(
    length: u64,
    batches: u64,
    target: &mut Target<S>,
    writer: &mut Watched<W>,
) -> io::Result<()>
    requires { has_failed writer.old ≡ false }
    ensures { SendsText W.contents writer.old writer.new result
        (shown_disk length batches (disk_of target.old)) }
{
    print_facts(length, batches, target, writer)?;
    writer.send(b"FAULTS\n")?;
    print_faults(target.profile(), target.faults(), writer)?;
    print_blocks(target, writer)
}

/// Prints the sizes of the file, and what it has of the disk's state but the blocks.
fn print_facts<S: Store, W: Write>(
    length: u64,
    batches: u64,
    target: &Target<S>,
    writer: &mut Watched<W>,
) -> io::Result<()>
    requires { has_failed writer.old ≡ false }
    ensures { SendsText W.contents writer.old writer.new result
        (facts length batches target.now.state) }
{
    let mut buffer = [0; GATHERED];
    let mut out = Printer::new(writer, &mut buffer);
    put_facts(length, batches, target, &mut out);
    out.finish()
}

fn put_facts<S: Store, W: Write>(
    length: u64,
    batches: u64,
    target: &Target<S>,
    out: &mut Printer<'_, W>,
)
    ensures { PrintsText W.contents out.old out.new (facts length batches target.now.state) }
{
    out.put(b"FILE\n");
    put_number_line(b"length", length, out);
    put_number_line(b"batches", batches, out);
    out.put(b"DISK\n");
    put_sizes(target, out);
    put_identity(target.config().identity(), out);
    out.put(b"SAVED MODE PAGES\n");
    put_pages(
        target.config().identity().profile(),
        target.saved_pages(),
        out,
    );
    out.put(b"RESERVATIONS\n");
    put_reservations(target.reservations(), out);
}

fn put_sizes<S: Store, W: Write>(target: &Target<S>, out: &mut Printer<'_, W>)
    ensures { PrintsText W.contents out.old out.new (size_lines target.now.state.disk) }
{
    put_number_line(b"blocks", target.capacity(), out);
    put_number_line(b"pool", u64::from(target.config().pool()), out);
    put_number_line(b"used", u64::from(target.used_blocks()), out);
}

fn put_identity<W: Write>(identity: &Identity, out: &mut Printer<'_, W>)
    ensures { PrintsText W.contents out.old out.new (identity_lines identity.now) }
{
    put_profile(identity.profile(), out);
    put_flag_line(b"short data-out", identity.takes_short_data_out(), out);
    put_physical(identity.physical_block(), out);
    put_name_line(b"vendor", identity.vendor(), out);
    put_name_line(b"product", identity.product(), out);
    put_name_line(b"revision", identity.revision(), out);
    put_name_line(b"serial", identity.serial(), out);
    put_digits_line(b"local identifier", identity.local(), out);
}

fn put_physical<W: Write>(physical: PhysicalBlock, out: &mut Printer<'_, W>)
    ensures { PrintsText W.contents out.old out.new (physical_lines physical) }
{
    match physical {
        PhysicalBlock::Of512 => {}
        PhysicalBlock::Of4096 => put_line(b"physical block", b"4096", out),
    }
}

fn put_profile<W: Write>(profile: Profile, out: &mut Printer<'_, W>)
    ensures { PrintsText W.contents out.old out.new (line (codes "profile") (profile_name profile)) }
{
    put_line(b"profile", profile_name(profile), out);
}

fn profile_name(profile: Profile) -> &'static [u8]
    ensures { result.now ≡ profile_name profile }
{
    match profile {
        Profile::Base => b"base",
        Profile::Extended => b"extended",
    }
}

/// Prints WCE, and the bytes of each saved mode page after its header.
fn put_pages<W: Write>(profile: Profile, saved: &PageValues, out: &mut Printer<'_, W>)
    ensures { PrintsText W.contents out.old out.new (page_lines profile saved.now) }
{
    put_flag_line(b"WCE", saves_wce(saved), out);
    put_hex_line(b"page 01h", &saved.error_recovery, out);
    put_hex_line(b"page 08h", &saved.caching, out);
    put_hex_line(b"page 0Ah", &saved.control, out);
    put_hex_line(b"page 1Ch", &saved.exceptions_control, out);
    put_provisioning(profile, saved, out);
}

/// Prints page 1Ch/02h, which only an extended disk has.
fn put_provisioning<W: Write>(profile: Profile, saved: &PageValues, out: &mut Printer<'_, W>)
    ensures { PrintsText W.contents out.old out.new (provisioning_line profile saved.now) }
{
    match profile {
        Profile::Base => {}
        Profile::Extended => put_hex_line(b"page 1Ch/02h", &saved.provisioning, out),
    }
}

fn saves_wce(saved: &PageValues) -> bool
    ensures { result ≡ saves_wce saved.now }
{
    saved.caching[0] & WCE != 0
}

fn put_reservations<W: Write>(state: &Reservations, out: &mut Printer<'_, W>)
    ensures { PrintsText W.contents out.old out.new (reservation_lines state.now) }
{
    put_flag_line(b"APTPL", state.persist_through_power_loss(), out);
    put_registrations(state.registrations(), out);
    put_reservation(state.reservation(), out);
}

fn put_registrations<W: Write>(registrations: &[Registration], out: &mut Printer<'_, W>)
    ensures { PrintsText W.contents out.old out.new (flat_map registration_line registrations.now) }
{
    for registration in registrations {
        put_registration(registration, out);
    }
}

fn put_registration<W: Write>(registration: &Registration, out: &mut Printer<'_, W>)
    ensures { PrintsText W.contents out.old out.new (registration_line registration.now) }
{
    out.put(b"  initiator: ");
    put_initiator(registration.initiator, out);
    out.put(b", key: ");
    put_digits(registration.key, out);
    put_ports(registration.all_tg_pt, out);
    out.put(b"\n");
}

fn put_ports<W: Write>(all_tg_pt: bool, out: &mut Printer<'_, W>)
    ensures { PrintsText W.contents out.old out.new (ports_text all_tg_pt) }
{
    if all_tg_pt {
        out.put(b", all target ports");
    }
}

fn put_reservation<W: Write>(reservation: Option<Reservation>, out: &mut Printer<'_, W>)
    ensures { PrintsText W.contents out.old out.new (reservation_line reservation) }
{
    if let Some(held) = reservation {
        put_held_reservation(held, out);
    }
}

fn put_held_reservation<W: Write>(held: Reservation, out: &mut Printer<'_, W>)
    ensures { PrintsText W.contents out.old out.new (held_reservation_line held) }
{
    out.put(b"  type: ");
    put_type(held.kind, out);
    out.put(b", holder: ");
    put_holder(held.holder, out);
    out.put(b"\n");
}

fn put_type<W: Write>(kind: ReservationType, out: &mut Printer<'_, W>)
    ensures { PrintsText W.contents out.old out.new (decimal (code_of kind)) }
{
    put_number(u64::from(kind.code()), out);
}

fn put_initiator<W: Write>(initiator: Initiator, out: &mut Printer<'_, W>)
    ensures { PrintsText W.contents out.old out.new (decimal initiator) }
{
    put_number(u64::from(initiator.number()), out);
}

fn put_holder<W: Write>(holder: Option<Initiator>, out: &mut Printer<'_, W>)
    ensures { PrintsText W.contents out.old out.new (holder_text holder) }
{
    match holder {
        Some(initiator) => put_initiator(initiator, out),
        None => out.put(b"all"),
    }
}

/// Prints the runs of mapped and of anchored addresses, one after another. It takes no memory for them.
fn print_blocks<S: Store, W: Write>(
    target: &mut Target<S>,
    writer: &mut Watched<W>,
) -> io::Result<()>
    requires { has_failed writer.old ≡ false }
    ensures { SendsText W.contents writer.old writer.new result (block_lines target.old.state.disk) }
{
    let mut buffer = [0; GATHERED];
    let mut out = Printer::new(writer, &mut buffer);
    out.put(b"BLOCKS\n");
    put_runs(target, &mut out);
    out.finish()
}

fn put_runs<S: Store, W: Write>(target: &mut Target<S>, out: &mut Printer<'_, W>)
    ensures { PrintsText W.contents out.old out.new (run_lines_from target.old.state.disk 0) }
{
    runs_make_the_disk();
    let capacity = target.capacity();
    let mut next = 0;
    while next < capacity {
        let run = target.run_at(next);
        put_run(run, out);
        next += u64::from(run.count);
    }
}

fn put_run<W: Write>(run: StatusDescriptor, out: &mut Printer<'_, W>)
    ensures { PrintsText W.contents out.old out.new (run_line run) }
{
    match run.status {
        ProvisioningStatus::Mapped => put_extent(b"  mapped ", run, out),
        ProvisioningStatus::Anchored => put_extent(b"  anchored ", run, out),
        ProvisioningStatus::Deallocated => {}
    }
}

fn put_extent<W: Write>(status: &[u8], run: StatusDescriptor, out: &mut Printer<'_, W>)
    ensures { PrintsText W.contents out.old out.new (extent_line status.now run.lba run.count) }
{
    out.put(status);
    put_number(run.lba, out);
    out.put(b" ");
    put_count(run.count, out);
    out.put(b"\n");
}

fn put_count<W: Write>(count: u32, out: &mut Printer<'_, W>)
    ensures { PrintsText W.contents out.old out.new (decimal count) }
{
    put_number(u64::from(count), out);
}

fn put_line<W: Write>(label: &[u8], value: &[u8], out: &mut Printer<'_, W>)
    ensures { PrintsText W.contents out.old out.new (line label.now value.now) }
{
    out.put(b"  ");
    out.put(label);
    out.put(b": ");
    out.put(value);
    out.put(b"\n");
}

fn put_number_line<W: Write>(label: &[u8], number: u64, out: &mut Printer<'_, W>)
    ensures { PrintsText W.contents out.old out.new (number_line label.now number) }
{
    out.put(b"  ");
    out.put(label);
    out.put(b": ");
    put_number(number, out);
    out.put(b"\n");
}

fn put_name_line<W: Write>(label: &[u8], name: &[u8], out: &mut Printer<'_, W>)
    ensures { PrintsText W.contents out.old out.new (name_line label.now name.now) }
{
    out.put(b"  ");
    out.put(label);
    out.put(b": ");
    put_bracketed(name, out);
    out.put(b"\n");
}

fn put_bracketed<W: Write>(name: &[u8], out: &mut Printer<'_, W>)
    ensures { PrintsText W.contents out.old out.new (codes "[" ++ (name.now ++ codes "]")) }
{
    out.put(b"[");
    out.put(name);
    out.put(b"]");
}

/// Prints a line with bytes in hexadecimal digits.
fn put_hex_line<W: Write>(label: &[u8], bytes: &[u8], out: &mut Printer<'_, W>)
    requires { length bytes.now ≤ LONGEST_PAGE }
    ensures { PrintsText W.contents out.old out.new (hex_line label.now bytes.now) }
{
    let mut digits = [0; 2 * LONGEST_PAGE];
    let digits = &mut digits[..2 * bytes.len()];
    hex::encode_to_slice(bytes, digits).unwrap();
    put_line(label, digits, out);
}

fn put_flag_line<W: Write>(label: &[u8], value: bool, out: &mut Printer<'_, W>)
    ensures { PrintsText W.contents out.old out.new (line label.now (flag value)) }
{
    put_line(label, flag(value), out);
}

fn flag(value: bool) -> &'static [u8]
    ensures { result.now ≡ flag value }
{
    if value { b"1" } else { b"0" }
}

fn put_digits_line<W: Write>(label: &[u8], number: u64, out: &mut Printer<'_, W>)
    ensures { PrintsText W.contents out.old out.new (line label.now (sixteen_digits number)) }
{
    put_line(label, &sixteen_digits(number), out);
}

fn put_digits<W: Write>(number: u64, out: &mut Printer<'_, W>)
    ensures { PrintsText W.contents out.old out.new (sixteen_digits number) }
{
    out.put(&sixteen_digits(number));
}

/// `0x` and the hexadecimal digits of a number.
fn sixteen_digits(number: u64) -> [u8; 18]
    ensures { result ≡ sixteen_digits number }
{
    let mut text = *b"0x0000000000000000";
    hex::encode_to_slice(number.to_be_bytes(), &mut text[2..]).unwrap();
    text
}
