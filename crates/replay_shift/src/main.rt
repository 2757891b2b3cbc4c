// Makes the calls on shift files of a stored list, its standard input, and prints a line of what came of each. vectors/README.md has both forms.
#![tactic(auto)]

use replay::{Answer, ByteSource, Left, List, Numbers};
use shift_file::{SettingCodes, ShiftForm};
use shift_reader::{EntryKind, ShiftReading};
use shift_record::RecordFrame;
use shift_writer::NotWritten;
use std::alloc::AllocError;
use std::io;
use std::io::Write;

// The most bytes of a file that is read, which may have 4,097 records, and of any other buffer.
const FILE: usize = 131072;

const ROOM: usize = 65536;

// The most numbers that a call of the list lends for entries, and what stands in each before the call.
const NUMBERS: usize = 44;

const BEFORE: u64 = 9;

// Reads the records of a file: those of an entry's kind, of a file in either form where the settings are told too.
fn read<S: ByteSource, W: Write + Drop>(
    kind: EntryKind,
    list: &mut List<S>,
    out: &mut W,
) -> io::Result<()> {
    let mut file = list.buffer(FILE)?;
    let first = list.wide() as usize;
    let room = list.room(NUMBERS);
    list.fill(&mut file);
    let form = match kind {
        EntryKind::Places => ShiftForm::WithoutSettings,
        EntryKind::PlacesAndSettings => shift_file::form_of(&file),
    };
    let mut entries = vec![in list.alloc; BEFORE; room]?;
    let reading = shift_reader::read_records(kind, form, &file, first, &mut entries);
    let answer = Answer(reading.map(|_| ()));
    // Both 0 with a refusal.
    let ShiftReading { count, told } = reading.unwrap_or_default();
    write!(out, "{answer} count={count} told={told}")?;
    if kind == EntryKind::PlacesAndSettings {
        // 1 for a file with settings; 0 after a refusal too.
        let form = u32::from(reading.is_ok() && form == ShiftForm::WithSettings);
        write!(out, " form={form}")?;
    }
    let entries = Numbers(&entries);
    write!(out, " entries{entries}")
}

// `replay_y4m` has this too: `replay`, whose `Left` it is, takes no type of `shift_writer`.
fn left_of(written: Result<usize, NotWritten>, output: &[u8]) -> Left<'_> {
    Left {
        answer: shift_writer::outcome_of(written),
        size: shift_writer::size_of(written),
        output,
    }
}

// Makes a call that reads the first of two buffers and writes into the second.
fn convert<
    S: ByteSource,
    W: Write + Drop,
    F: FnOnce(&[u8], &mut [u8]) -> Result<usize, NotWritten>,
>(list: &mut List<S>, out: &mut W, make: F) -> io::Result<()>
    requires { F.IsAlwaysCallable make }
{
    let mut input = list.buffer(ROOM)?;
    let mut output = [0; ROOM];
    let output = &mut output[..list.room(ROOM)];
    list.fill(&mut input);
    list.fill(output);
    let written = make(&input, output);
    let left = left_of(written, output);
    write!(out, "{left}")
}

fn write<S: ByteSource, W: Write + Drop>(
    form: ShiftForm,
    list: &mut List<S>,
    out: &mut W,
) -> io::Result<()> {
    convert(
        list,
        out,
        |records, output| shift_writer::write_file(form, records, output),
    )
}

fn move_file<S: ByteSource, W: Write + Drop>(
    from: ShiftForm,
    list: &mut List<S>,
    out: &mut W,
) -> io::Result<()> {
    convert(
        list,
        out,
        |file, output| shift_move::move_file(from, file, output),
    )
}

fn read_codes<S: ByteSource>(list: &mut List<S>) -> SettingCodes {
    SettingCodes {
        sampling: list.number(),
        range: list.number(),
        matrix: list.number(),
        transfer: list.number(),
    }
}

// The frame of a record: its settings stand in the list in the form that has them.
fn read_frame<S: ByteSource>(list: &mut List<S>, form: ShiftForm) -> RecordFrame {
    let crossing = list.number();
    let width = list.number();
    let height = list.number();
    let y_stride = list.number();
    let u_stride = list.number();
    let v_stride = list.number();
    let settings = match form {
        ShiftForm::WithoutSettings => None,
        ShiftForm::WithSettings => Some(read_codes(list)),
    };
    RecordFrame {
        crossing,
        width,
        height,
        settings,
        y_stride,
        u_stride,
        v_stride,
    }
}

fn write_record<S: ByteSource, W: Write + Drop>(
    form: ShiftForm,
    list: &mut List<S>,
    out: &mut W,
) -> io::Result<()> {
    let mut planes = list.planes(ROOM)?;
    let mut output = [0; ROOM];
    let output = &mut output[..list.room(ROOM)];
    let frame = read_frame(list, form);
    list.fill_planes(&mut planes);
    list.fill(output);
    let written = shift_record::write_record(frame, &planes.y, &planes.u, &planes.v, output);
    let left = left_of(written, output);
    write!(out, "{left}")
}

// The stored list says which call it is by a number: here the number becomes the call. An enum of the calls, made of it first, would be no plainer.
fn call<S: ByteSource, W: Write + Drop>(list: &mut List<S>, out: &mut W) -> io::Result<()> {
    match list.number() {
        0 => read(EntryKind::Places, list, out),
        1 => write(ShiftForm::WithoutSettings, list, out),
        2 => write_record(ShiftForm::WithoutSettings, list, out),
        3 => read(EntryKind::PlacesAndSettings, list, out),
        4 => write(ShiftForm::WithSettings, list, out),
        5 => write_record(ShiftForm::WithSettings, list, out),
        6 => move_file(ShiftForm::WithoutSettings, list, out),
        _ => move_file(ShiftForm::WithSettings, list, out),
    }
}

fn main(rt: HostRuntime) -> Result<(), AllocError> {
    replay::passed_over(replay::over_streams_as_read(
        rt.alloc(),
        rt.reader(),
        replay::Lossy(io::writer(&rt)),
        call,
    ))
}
