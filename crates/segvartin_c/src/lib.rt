// The functions that C links, and no other: each is the call of that name of the library `segvartin`, with its clauses.
// include/segvartin.h declares them. This is the interface of C: no parameters are joined in a type.
#![tactic(auto)]

ghost use Rattle.frame_calls.specs.Calls.{exported_frame, FrameKept, exported_opening, OpenKept, exported_band, BandKept};
ghost use Rattle.frame_calls.specs.Counts.{exported_counts, CountsKept};
ghost use Rattle.convoy.specs.Run.{planes_of};
ghost use Rattle.convoy_calls.specs.Calls.{exported_convoy, ConvoyKept};
ghost use Rattle.desk_bands.specs.Buffers.{buffers_of};
ghost use Rattle.desk_numbers.specs.Numbers.{desk_numbers};
ghost use Rattle.desk_calls.specs.Calls.{exported_desk_open, DeskOpenKept, exported_desk_offer, DeskOfferKept, exported_desk_step, DeskStepKept};
ghost use Rattle.shift_calls.specs.Shift.{exported_reading, ReadingKept, ReadingAnyKept, exported_writing, WritingKept};
ghost use Rattle.shift_calls.specs.Shift.{exported_record, RecordKept, exported_move, MoveKept};
ghost use Rattle.shift_calls.specs.Summary.{exported_build, BuildKept, exported_check, CheckKept, exported_find, FindKept, exported_update, UpdateKept};
ghost use Rattle.shift_calls.specs.Pairs.{exported_pairing, PairingKept};
ghost use Rattle.y4m_calls.specs.Calls.{exported_y4m_reading, Y4mReadingKept, exported_y4m_writing, Y4mWritingKept};
ghost use Rattle.y4m_calls.specs.Calls.{exported_y4m_picture, Y4mPictureKept};

use shift_file::ShiftForm;

#[unsafe(no_mangle)]
pub extern "C" fn segvartin_call_frame(
    numbers: &[u32],
    custom: &[f32; 2],
    source: &[u8],
    y: &mut [u8],
    u: &mut [u8],
    v: &mut [u8],
    told: &mut [usize; 2],
) -> u32
    ensures { FrameKept (exported_frame numbers.now custom.now source.now
        y.old u.old v.old result told.new y.new u.new v.new) }
{
    segvartin::segvartin_call_frame(numbers, custom, source, y, u, v, told)
}

#[unsafe(no_mangle)]
pub extern "C" fn segvartin_call_convoy(
    count: usize,
    numbers: &[u32],
    customs: &[f32],
    parts: &[u64],
    source: &[u8],
    y: &mut [u8],
    u: &mut [u8],
    v: &mut [u8],
    told: &mut [usize; 3],
) -> u32
    ensures { ConvoyKept (exported_convoy count numbers.now customs.now parts.now source.now
        (planes_of y.old u.old v.old) result told.new
        (planes_of y.new u.new v.new)) }
{
    segvartin::segvartin_call_convoy(count, numbers, customs, parts, source, y, u, v, told)
}

#[unsafe(no_mangle)]
pub extern "C" fn segvartin_call_desk_open(
    camera: u32,
    described: &[u32],
    custom: &[f32; 2],
    frame_parts: &[u64; 8],
    lengths: &[u64; 4],
    numbers: &mut [u32; 609],
    customs: &mut [f32; 64],
    parts: &mut [u64; 320],
    told: &mut [usize; 2],
) -> u32
    ensures { DeskOpenKept (exported_desk_open camera described.now custom.now frame_parts.now lengths.now
        (desk_numbers numbers.old customs.old parts.old) result told.new
        (desk_numbers numbers.new customs.new parts.new)) }
{
    segvartin::segvartin_call_desk_open(
        camera,
        described,
        custom,
        frame_parts,
        lengths,
        numbers,
        customs,
        parts,
        told,
    )
}

#[unsafe(no_mangle)]
pub extern "C" fn segvartin_call_desk_offer(
    camera: u32,
    band: &[u32; 2],
    place: &[u64; 3],
    numbers: &mut [u32; 609],
    customs: &mut [f32; 64],
    parts: &mut [u64; 320],
) -> u32
    ensures { DeskOfferKept (exported_desk_offer camera band.now place.now
        (desk_numbers numbers.old customs.old parts.old) result
        (desk_numbers numbers.new customs.new parts.new)) }
{
    segvartin::segvartin_call_desk_offer(camera, band, place, numbers, customs, parts)
}

#[unsafe(no_mangle)]
pub extern "C" fn segvartin_call_desk_step(
    source: &[u8],
    y: &mut [u8],
    u: &mut [u8],
    v: &mut [u8],
    carried: &mut [u8],
    numbers: &mut [u32; 609],
    customs: &mut [f32; 64],
    parts: &mut [u64; 320],
    told: &mut [usize; 4],
) -> u32
    ensures { DeskStepKept (exported_desk_step (desk_numbers numbers.old customs.old parts.old)
        (buffers_of source.now y.old u.old v.old carried.old) result told.new
        (desk_numbers numbers.new customs.new parts.new)
        (buffers_of source.now y.new u.new v.new carried.new)) }
{
    segvartin::segvartin_call_desk_step(source, y, u, v, carried, numbers, customs, parts, told)
}

#[unsafe(no_mangle)]
pub extern "C" fn segvartin_call_open(
    numbers: &[u32],
    custom: &[f32; 2],
    told: &mut [usize; 3],
) -> u32
    ensures { OpenKept (exported_opening numbers.now custom.now result told.new) }
{
    segvartin::segvartin_call_open(numbers, custom, told)
}

#[unsafe(no_mangle)]
pub extern "C" fn segvartin_call_band(
    numbers: &[u32],
    custom: &[f32; 2],
    source: &[u8],
    y: &mut [u8],
    u: &mut [u8],
    v: &mut [u8],
    carried: &mut [u8],
    told: &mut [usize; 3],
) -> u32
    ensures { BandKept (exported_band numbers.now custom.now source.now
        y.old u.old v.old carried.old
        result told.new y.new u.new v.new carried.new) }
{
    segvartin::segvartin_call_band(numbers, custom, source, y, u, v, carried, told)
}

#[unsafe(no_mangle)]
pub extern "C" fn segvartin_call_luma_counts(
    numbers: &[u32],
    custom: &[f32; 2],
    counts: &mut [u32; 256],
    told: &mut [usize; 2],
) -> u32
    ensures { CountsKept (exported_counts numbers.now custom.now counts.old
        result told.new counts.new) }
{
    segvartin::segvartin_call_luma_counts(numbers, custom, counts, told)
}

#[unsafe(no_mangle)]
pub extern "C" fn segvartin_call_shift_records(
    file: &[u8],
    first: usize,
    entries: &mut [u64],
    told: &mut [usize; 2],
) -> u32
    ensures { ReadingKept (exported_reading file.now first entries.old result told.new entries.new) }
{
    segvartin::segvartin_call_shift_records(file, first, entries, told)
}

#[unsafe(no_mangle)]
pub extern "C" fn segvartin_call_shift_records_any(
    file: &[u8],
    first: usize,
    entries: &mut [u64],
    told: &mut [usize; 3],
) -> u32
    ensures { ReadingAnyKept (exported_reading file.now first entries.old result told.new entries.new) }
{
    segvartin::segvartin_call_shift_records_any(file, first, entries, told)
}

#[unsafe(no_mangle)]
pub extern "C" fn segvartin_call_shift_write(
    records: &[u8],
    file: &mut [u8],
    told: &mut [usize; 1],
) -> u32
    ensures { WritingKept ShiftForm.WithoutSettings (exported_writing records.now file.old result told.new file.new) }
{
    segvartin::segvartin_call_shift_write(records, file, told)
}

#[unsafe(no_mangle)]
pub extern "C" fn segvartin_call_shift_write_settings(
    records: &[u8],
    file: &mut [u8],
    told: &mut [usize; 1],
) -> u32
    ensures { WritingKept ShiftForm.WithSettings (exported_writing records.now file.old result told.new file.new) }
{
    segvartin::segvartin_call_shift_write_settings(records, file, told)
}

#[unsafe(no_mangle)]
pub extern "C" fn segvartin_call_shift_forward(
    file: &[u8],
    output: &mut [u8],
    told: &mut [usize; 1],
) -> u32
    ensures { MoveKept ShiftForm.WithoutSettings (exported_move file.now output.old result told.new output.new) }
{
    segvartin::segvartin_call_shift_forward(file, output, told)
}

#[unsafe(no_mangle)]
pub extern "C" fn segvartin_call_shift_back(
    file: &[u8],
    output: &mut [u8],
    told: &mut [usize; 1],
) -> u32
    ensures { MoveKept ShiftForm.WithSettings (exported_move file.now output.old result told.new output.new) }
{
    segvartin::segvartin_call_shift_back(file, output, told)
}

#[unsafe(no_mangle)]
pub extern "C" fn segvartin_call_shift_record(
    numbers: &[u32; 6],
    y: &[u8],
    u: &[u8],
    v: &[u8],
    record: &mut [u8],
    told: &mut [usize; 3],
) -> u32
    ensures { RecordKept ShiftForm.WithoutSettings (exported_record numbers.now y.now u.now v.now
        «record».old result told.new «record».new) }
{
    segvartin::segvartin_call_shift_record(numbers, y, u, v, record, told)
}

#[unsafe(no_mangle)]
pub extern "C" fn segvartin_call_shift_record_settings(
    numbers: &[u32; 10],
    y: &[u8],
    u: &[u8],
    v: &[u8],
    record: &mut [u8],
    told: &mut [usize; 3],
) -> u32
    ensures { RecordKept ShiftForm.WithSettings (exported_record numbers.now y.now u.now v.now
        «record».old result told.new «record».new) }
{
    segvartin::segvartin_call_shift_record_settings(numbers, y, u, v, record, told)
}

#[unsafe(no_mangle)]
pub extern "C" fn segvartin_call_summary_build(file: &[u8], summary: &mut [u8]) -> u32
    ensures { BuildKept (exported_build file.now summary.old result summary.new) }
{
    segvartin::segvartin_call_summary_build(file, summary)
}

#[unsafe(no_mangle)]
pub extern "C" fn segvartin_call_summary_check(
    file: &[u8],
    summary: &[u8],
    told: &mut [usize; 1],
) -> u32
    ensures { CheckKept (exported_check file.now summary.now result told.new) }
{
    segvartin::segvartin_call_summary_check(file, summary, told)
}

#[unsafe(no_mangle)]
pub extern "C" fn segvartin_call_summary_find(
    file: &[u8],
    summary: &[u8],
    crossing: u32,
    told: &mut [usize; 2],
) -> u32
    ensures { FindKept (exported_find file.now summary.now crossing result told.new) }
{
    segvartin::segvartin_call_summary_find(file, summary, crossing, told)
}

#[unsafe(no_mangle)]
pub extern "C" fn segvartin_call_summary_update(
    file: &[u8],
    added: &[u8],
    summary: &mut [u8],
) -> u32
    ensures { UpdateKept (exported_update file.now added.now summary.old result summary.new) }
{
    segvartin::segvartin_call_summary_update(file, added, summary)
}

#[unsafe(no_mangle)]
pub extern "C" fn segvartin_call_shift_pairs(
    ours: &[u8],
    theirs: &[u8],
    report: &mut [u64; 18],
    told: &mut [usize; 1],
) -> u32
    ensures { PairingKept (exported_pairing ours.now theirs.now report.old result told.new report.new) }
{
    segvartin::segvartin_call_shift_pairs(ours, theirs, report, told)
}

#[unsafe(no_mangle)]
pub extern "C" fn segvartin_call_y4m_pictures(
    file: &[u8],
    first: usize,
    entries: &mut [u64],
    told: &mut [usize; 5],
) -> u32
    ensures { Y4mReadingKept (exported_y4m_reading file.now first entries.old result told.new entries.new) }
{
    segvartin::segvartin_call_y4m_pictures(file, first, entries, told)
}

#[unsafe(no_mangle)]
pub extern "C" fn segvartin_call_y4m_write(
    numbers: &[u32; 3],
    pictures: &[u8],
    output: &mut [u8],
    told: &mut [usize; 1],
) -> u32
    ensures { Y4mWritingKept (exported_y4m_writing numbers.now pictures.now output.old result told.new
        output.new) }
{
    segvartin::segvartin_call_y4m_write(numbers, pictures, output, told)
}

#[unsafe(no_mangle)]
pub extern "C" fn segvartin_call_y4m_picture(
    numbers: &[u32; 6],
    y: &[u8],
    u: &[u8],
    v: &[u8],
    output: &mut [u8],
    told: &mut [usize; 1],
) -> u32
    ensures { Y4mPictureKept (exported_y4m_picture numbers.now y.now u.now v.now output.old result
        told.new output.new) }
{
    segvartin::segvartin_call_y4m_picture(numbers, y, u, v, output, told)
}
