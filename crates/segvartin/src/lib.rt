// The functions that C links: numbers and lent bytes, no enum and no struct. A caller's numbers come in a slice, so that a later setting is one
// number more and no signature changes; how many there are says which call is meant. Each is one call of the crate that has its work.
// segvartin_c exports these functions under their names, and include/segvartin.h declares them and has calls with structs over them.
// This is the interface of C, so what goes together in C's structs comes one by one here, and no parameters are joined in a type.
#![tactic(auto)]

ghost use Rattle.frame_calls.specs.Calls.{exported_frame, FrameKept, exported_opening, OpenKept, exported_band, BandKept};
ghost use Rattle.frame_calls.specs.Counts.{exported_counts, CountsKept};
ghost use Rattle.convoy.specs.Run.{planes_of};
ghost use Rattle.convoy_calls.specs.Calls.{exported_convoy, ConvoyKept};
ghost use Rattle.desk_bands.specs.Buffers.{buffers_of};
ghost use Rattle.desk_numbers.specs.Numbers.{desk_numbers};
ghost use Rattle.desk_calls.specs.Calls.{exported_desk_open, DeskOpenKept, exported_desk_offer, DeskOfferKept, exported_desk_step, DeskStepKept};
ghost use Rattle.shift_calls.specs.Shift.{exported_reading, ReadingKept, ReadingAnyKept, exported_writing, WritingKept};
ghost use Rattle.shift_calls.specs.Shift.{exported_record, RecordKept, exported_move, MoveKept};
ghost use Rattle.shift_calls.specs.Summary.{exported_build, BuildKept, exported_check, CheckKept, exported_find, FindKept, exported_update, UpdateKept};
ghost use Rattle.shift_calls.specs.Pairs.{exported_pairing, PairingKept};
ghost use Rattle.y4m_calls.specs.Calls.{exported_y4m_reading, Y4mReadingKept, exported_y4m_writing, Y4mWritingKept};
ghost use Rattle.y4m_calls.specs.Calls.{exported_y4m_picture, Y4mPictureKept};

use shift_file::ShiftForm;

// Converts a whole frame (0), or answers the number of one refusal and writes no byte of a plane: 1 for numbers without a meaning, else 2, 3, 4,
// 14 or 6 to 12. numbers: the source's stride, then the description. told: expected and received.
pub fn segvartin_call_frame(
    numbers: &[u32],
    custom: &[f32; 2],
    source: &[u8],
    y: &mut [u8],
    u: &mut [u8],
    v: &mut [u8],
    told: &mut [usize; 2],
) -> u32
    ensures { FrameKept (exported_frame numbers.now custom.now source.now
        y.old u.old v.old result told.new y.new u.new v.new) }
{
    frame_calls::call_frame(numbers, custom, source, y, u, v, told)
}

// Converts a convoy of up to 64 frames over one source and one buffer for each plane (0), as single calls in order would; or answers the number of
// one refusal: 18 before any frame is begun, where there are more than 64, a part reaches outside its buffer or plane parts of two frames overlap;
// else that of the first frame that is refused, 1 for numbers without a meaning among them, with its own parts and those of later frames as they
// were. numbers: for each frame its source's stride, then the description with rounding and window. customs: for each frame kr and kb. parts: for
// each frame offset and length in the source, in Y, in U and in V. told: expected, received, and how many frames are finished, which is the
// place of the refused one.
pub fn segvartin_call_convoy(
    count: usize,
    numbers: &[u32],
    customs: &[f32],
    parts: &[u64],
    source: &[u8],
    y: &mut [u8],
    u: &mut [u8],
    v: &mut [u8],
    told: &mut [usize; 3],
) -> u32
    ensures { ConvoyKept (exported_convoy count numbers.now customs.now parts.now source.now
        (planes_of y.old u.old v.old) result told.new
        (planes_of y.new u.new v.new)) }
{
    convoy_calls::call_convoy(count, numbers, customs, parts, source, y, u, v, told)
}

// ---- The front desk: its three arrays go from call to call as they are, and all zeros is a desk with no frame open. numbers: nineteen for each of 32
// cameras (0 no frame, 1 a frame, 2 a frame with a band that waits; the rows done; the band's rows and stride; the description with rounding and
// window), then the camera that is asked first. customs: its kr and kb. parts: offset and length of its band in the source, then of its parts of Y, U
// and V and of the carried rows. A call that finds work done writes one camera's place anew, and a step also who is asked first.

// Opens a frame for a camera (0), or answers the number of one refusal and changes nothing at the desk: 21 for a camera above 31, 23 for one that has a
// frame, 18 where a part reaches outside its buffer or overlaps an open frame's, 1 for numbers without a meaning, else 2, 3, 4 or 14. described: the
// description. frame_parts: offset and length in Y, U, V and in the carried rows. lengths: of these buffers. told: expected and received.
pub fn segvartin_call_desk_open(
    camera: u32,
    described: &[u32],
    custom: &[f32; 2],
    frame_parts: &[u64; 8],
    lengths: &[u64; 4],
    numbers: &mut [u32; 609],
    customs: &mut [f32; 64],
    parts: &mut [u64; 320],
    told: &mut [usize; 2],
) -> u32
    ensures { DeskOpenKept (exported_desk_open camera described.now custom.now frame_parts.now lengths.now
        (desk_numbers numbers.old customs.old parts.old) result told.new
        (desk_numbers numbers.new customs.new parts.new)) }
{
    desk_calls::call_desk_open(
        camera,
        described,
        custom,
        frame_parts,
        lengths,
        numbers,
        customs,
        parts,
        told,
    )
}

// Takes a camera's next band to wait (0), or answers the number of one refusal and changes nothing at the desk: 21 for a camera above 31 or without a
// frame, 22 where a band of it waits, 18 where the band reaches outside the source. band: its rows and stride. place: its offset and length in the
// source, and how long the source is.
pub fn segvartin_call_desk_offer(
    camera: u32,
    band: &[u32; 2],
    place: &[u64; 3],
    numbers: &mut [u32; 609],
    customs: &mut [f32; 64],
    parts: &mut [u64; 320],
) -> u32
    ensures { DeskOfferKept (exported_desk_offer camera band.now place.now
        (desk_numbers numbers.old customs.old parts.old) result
        (desk_numbers numbers.new customs.new parts.new)) }
{
    desk_calls::call_desk_offer(camera, band, place, numbers, customs, parts)
}

// Serves the next camera with a band waiting, and answers 0 where its band was converted or none waited, else the number of one refusal, with which no
// byte is written: 18 where a part reaches outside the buffers now lent, else the band call's. The band is used up either way. told: expected,
// received, 1 where a camera was served or refused and 0 where none waited, and its number.
pub fn segvartin_call_desk_step(
    source: &[u8],
    y: &mut [u8],
    u: &mut [u8],
    v: &mut [u8],
    carried: &mut [u8],
    numbers: &mut [u32; 609],
    customs: &mut [f32; 64],
    parts: &mut [u64; 320],
    told: &mut [usize; 4],
) -> u32
    ensures { DeskStepKept (exported_desk_step (desk_numbers numbers.old customs.old parts.old)
        (buffers_of source.now y.old u.old v.old carried.old) result told.new
        (desk_numbers numbers.new customs.new parts.new)
        (buffers_of source.now y.new u.new v.new carried.new)) }
{
    desk_steps::call_desk_step(source, y, u, v, carried, numbers, customs, parts, told)
}

// Opens a frame that comes in bands (0), or answers the number of one refusal: 1 for numbers without a meaning, else 2, 3, 4 or 14.
// numbers: the description. told: expected, received, and the rows done, 0.
pub fn segvartin_call_open(numbers: &[u32], custom: &[f32; 2], told: &mut [usize; 3]) -> u32
    ensures { OpenKept (exported_opening numbers.now custom.now result told.new) }
{
    frame_calls::call_open(numbers, custom, told)
}

// Converts the next rows of a frame (0), or answers the number of one refusal, writes no byte of a plane or of the carried row and leaves the rows
// done as they are: 1 for numbers without a meaning, else 2 to 14. numbers: the rows done, the rows of the band, the source's stride, then the
// description. told: expected, received, and the rows done.
pub fn segvartin_call_band(
    numbers: &[u32],
    custom: &[f32; 2],
    source: &[u8],
    y: &mut [u8],
    u: &mut [u8],
    v: &mut [u8],
    carried: &mut [u8],
    told: &mut [usize; 3],
) -> u32
    ensures { BandKept (exported_band numbers.now custom.now source.now
        y.old u.old v.old carried.old
        result told.new y.new u.new v.new carried.new) }
{
    frame_calls::call_band(numbers, custom, source, y, u, v, carried, told)
}

// Counts how many of the 16,777,216 colours have each luma (0), or answers the number of one refusal and writes no count: 1 for numbers without a
// meaning, else 4. numbers: range, matrix. told: expected and received.
pub fn segvartin_call_luma_counts(
    numbers: &[u32],
    custom: &[f32; 2],
    counts: &mut [u32; 256],
    told: &mut [usize; 2],
) -> u32
    ensures { CountsKept (exported_counts numbers.now custom.now counts.old
        result told.new counts.new) }
{
    frame_calls::call_luma_counts(numbers, custom, counts, told)
}

// How many records a shift file has (0), or 15 where these bytes are none, with nothing written. Eleven numbers go to `entries` for each record from
// `first` on that has room: crossing, width, height, then offset and length of the record, of Y, of U and of V. told: the count, and how many
// records were told of.
pub fn segvartin_call_shift_records(
    file: &[u8],
    first: usize,
    entries: &mut [u64],
    told: &mut [usize; 2],
) -> u32
    ensures { ReadingKept (exported_reading file.now first entries.old result told.new entries.new) }
{
    shift_calls::call_shift_records(file, first, entries, told)
}

// As `segvartin_call_shift_records`, of a file of either form, with fifteen numbers an entry: the eleven, then the codes of sampling, range, matrix
// and transfer, 255 in the last three for not recorded; of a record without settings 0, 255, 255 and 255. told: the count, how many records were
// told of, and 1 for a file with settings, else 0.
pub fn segvartin_call_shift_records_any(
    file: &[u8],
    first: usize,
    entries: &mut [u64],
    told: &mut [usize; 3],
) -> u32
    ensures { ReadingAnyKept (exported_reading file.now first entries.old result told.new entries.new) }
{
    shift_calls::call_shift_records_any(file, first, entries, told)
}

// Writes the shift file of records back to back (0); or answers 15 where they are no list of records that has a file, 16 where `file` is shorter than
// it, and writes nothing. told: the file's size, after 16 too.
pub fn segvartin_call_shift_write(records: &[u8], file: &mut [u8], told: &mut [usize; 1]) -> u32
    ensures { WritingKept ShiftForm.WithoutSettings (exported_writing records.now file.old result told.new file.new) }
{
    shift_calls::call_shift_write(ShiftForm::WithoutSettings, records, file, told)
}

// As `segvartin_call_shift_write`, of records and a file with settings. Two names of C's, and one call of `shift_calls` with the form: so are
// `segvartin_call_shift_forward` and `segvartin_call_shift_back`.
pub fn segvartin_call_shift_write_settings(
    records: &[u8],
    file: &mut [u8],
    told: &mut [usize; 1],
) -> u32
    ensures { WritingKept ShiftForm.WithSettings (exported_writing records.now file.old result told.new file.new) }
{
    shift_calls::call_shift_write(ShiftForm::WithSettings, records, file, told)
}

// Writes a shift file without settings as one with them, 4:2:0 and nothing recorded, at the front of `output` (0); or answers 15 where these bytes are
// no shift file without settings, 16 where `output` is shorter than the moved file, and writes nothing. told: the moved file's size, after 16 too.
pub fn segvartin_call_shift_forward(file: &[u8], output: &mut [u8], told: &mut [usize; 1]) -> u32
    ensures { MoveKept ShiftForm.WithoutSettings (exported_move file.now output.old result told.new output.new) }
{
    shift_calls::call_shift_move(ShiftForm::WithoutSettings, file, output, told)
}

// Writes a shift file with settings as one without them at the front of `output` (0); or answers 15 where these bytes are no shift file with settings,
// 20 where a record has 4:2:2 or a recorded setting, 16 where `output` is shorter than the moved file, and writes nothing. told: the moved file's
// size, after 16 too.
pub fn segvartin_call_shift_back(file: &[u8], output: &mut [u8], told: &mut [usize; 1]) -> u32
    ensures { MoveKept ShiftForm.WithSettings (exported_move file.now output.old result told.new output.new) }
{
    shift_calls::call_shift_move(ShiftForm::WithSettings, file, output, told)
}

// Makes one record of planes of 4:2:0 as a frame call leaves them (0); or answers 15 where a side is not 1 to 16,384, 8 to 12 as a frame call does, 16
// where `record` is shorter than it, and writes nothing. numbers: crossing, width, height, the strides of Y, U and V. told: expected, received,
// and the record's size, after 16 too.
pub fn segvartin_call_shift_record(
    numbers: &[u32; 6],
    y: &[u8],
    u: &[u8],
    v: &[u8],
    record: &mut [u8],
    told: &mut [usize; 3],
) -> u32
    ensures { RecordKept ShiftForm.WithoutSettings (exported_record numbers.now y.now u.now v.now
        «record».old result told.new «record».new) }
{
    shift_calls::call_shift_record(numbers, y, u, v, record, told)
}

// As `segvartin_call_shift_record`, with settings, and of planes of the sampling among them; 15 also where a setting has no such code. numbers:
// crossing, width, height, the strides of Y, U and V, then the codes of sampling, range, matrix (6 for Custom) and transfer, 255 in the last three for
// not recorded.
pub fn segvartin_call_shift_record_settings(
    numbers: &[u32; 10],
    y: &[u8],
    u: &[u8],
    v: &[u8],
    record: &mut [u8],
    told: &mut [usize; 3],
) -> u32
    ensures { RecordKept ShiftForm.WithSettings (exported_record numbers.now y.now u.now v.now
        «record».old result told.new «record».new) }
{
    shift_calls::call_shift_record_settings(numbers, y, u, v, record, told)
}

// Writes a shift file's summary, 13 bytes a record, at the start of `summary` (0); or answers 15 where these bytes are no file, 17 where `summary` is
// shorter, and writes nothing.
pub fn segvartin_call_summary_build(file: &[u8], summary: &mut [u8]) -> u32
    ensures { BuildKept (exported_build file.now summary.old result summary.new) }
{
    shift_calls::call_summary_build(file, summary)
}

// Whether `summary` starts with a summary of a shift file (0), or 15 where these bytes are no file. told: 1 for yes, 0 for no.
pub fn segvartin_call_summary_check(file: &[u8], summary: &[u8], told: &mut [usize; 1]) -> u32
    ensures { CheckKept (exported_check file.now summary.now result told.new) }
{
    shift_calls::call_summary_check(file, summary, told)
}

// The record of a crossing, the first by offset if several (0); or answers 15 where these bytes are no file, 17 where `summary` does not start with
// its summary. told: how many were found, 1 or 0, and the number of that record, from 0.
pub fn segvartin_call_summary_find(
    file: &[u8],
    summary: &[u8],
    crossing: u32,
    told: &mut [usize; 2],
) -> u32
    ensures { FindKept (exported_find file.now summary.now crossing result told.new) }
{
    shift_calls::call_summary_find(file, summary, crossing, told)
}

// Rewrites a shift file's summary as that of the file with the record `added` at its end (0), in 13 bytes more; or answers 15 where these bytes are no
// file, no record, or a file that may not grow, 17 where `summary` is shorter or not the file's summary, and writes nothing.
pub fn segvartin_call_summary_update(file: &[u8], added: &[u8], summary: &mut [u8]) -> u32
    ensures { UpdateKept (exported_update file.now added.now summary.old result summary.new) }
{
    shift_calls::call_summary_update(file, added, summary)
}

// Pairs two shift files, each of either form, the k-th record of a crossing in ours with the k-th in theirs (0); or answers 15 where one is no shift
// file, and writes no number of the report. report: how many pairs are equal and how many differ, how many records are only in ours and only in
// theirs; of the first pair that differs the kind (0 none, 1 sizes, 2 a place), its crossing, the places of its records in ours and in theirs; for
// sizes width and height of ours and of theirs; for a place plane (0 Y, 1 U, 2 V), row and column; for sizes the codes of the samplings of ours
// and of theirs; 0. told: the file that is none, 1 for ours, 2 for theirs, or 0.
pub fn segvartin_call_shift_pairs(
    ours: &[u8],
    theirs: &[u8],
    report: &mut [u64; 18],
    told: &mut [usize; 1],
) -> u32
    ensures { PairingKept (exported_pairing ours.now theirs.now report.old result told.new report.new) }
{
    shift_calls::call_shift_pairs(ours, theirs, report, told)
}

// ---- Y4M files. Their refusals 19 and 16 come without expected and received.

// What a Y4M file's header says and how many pictures follow (0), or 19 where these bytes are none, with nothing written. Six numbers go to `entries` for
// each picture from `first` on that has room: offset and length of Y, of U and of V in the file. told: width, height, the sampling's code, the
// count, and how many pictures were told of; each 0 after 19.
pub fn segvartin_call_y4m_pictures(
    file: &[u8],
    first: usize,
    entries: &mut [u64],
    told: &mut [usize; 5],
) -> u32
    ensures { Y4mReadingKept (exported_y4m_reading file.now first entries.old result told.new entries.new) }
{
    y4m_calls::read_by_numbers(file, first, entries, told)
}

// Writes the Y4M file of pictures, each its Y, U and V without padding, back to back, at the front of `output` (0), a file of no picture too; or answers 19
// where a side or the sampling's code is not allowed or the bytes are not whole pictures, 16 where `output` is shorter than the file, and writes nothing.
// numbers: width, height, the sampling's code. told: the file's size, after 16 too; 0 after 19, and where the size is no number of 64 bits.
pub fn segvartin_call_y4m_write(
    numbers: &[u32; 3],
    pictures: &[u8],
    output: &mut [u8],
    told: &mut [usize; 1],
) -> u32
    ensures { Y4mWritingKept (exported_y4m_writing numbers.now pictures.now output.old result told.new
        output.new) }
{
    y4m_calls::write_by_numbers(numbers, pictures, output, told)
}

// Writes one picture of a Y4M file from planes as a frame call leaves them, a line FRAME and then Y, U and V without padding, at the front of `output` (0); or
// answers 19 where a side or the sampling's code is not allowed, a stride is shorter than its plane's row, or a plane is not stride × rows bytes, 16
// where `output` is shorter than the picture, and writes nothing. A file with such pictures after it is the file with their planes: the file of no
// picture begins one. numbers: width, height, the sampling's code, the strides of Y, U and V. told: the picture's size, after 16 too; 0 after 19.
pub fn segvartin_call_y4m_picture(
    numbers: &[u32; 6],
    y: &[u8],
    u: &[u8],
    v: &[u8],
    output: &mut [u8],
    told: &mut [usize; 1],
) -> u32
    ensures { Y4mPictureKept (exported_y4m_picture numbers.now y.now u.now v.now output.old result
        told.new output.new) }
{
    y4m_calls::picture_by_numbers(numbers, y, u, v, output, told)
}
