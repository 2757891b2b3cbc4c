// Y4M files by numbers, as C and Rust call them (RULES 10.8): each is one call of the reader or a writer, whose answer's number is returned and whose
// other numbers go to the array `told`.
#![tactic(auto)]

ghost use Rattle.std.specs.Prelude.{◌≡◌};
ghost use Rattle.yuv_error.specs.Numbers.{numbers_of};
ghost use Rattle.y4m_reader.specs.Reading.{y4m_outcome, y4m_reading_of};
ghost use Rattle.y4m_calls.specs.Calls.{y4m_told, exported_y4m_reading, Y4mReadingKept, exported_y4m_writing, Y4mWritingKept};
ghost use Rattle.y4m_calls.specs.Calls.{exported_y4m_picture, Y4mPictureKept};

use y4m_picture::PictureFrame;
use y4m_reader::Y4mReading;
use yuv_error::YuvError;

fn tell_reading(reading: Result<Y4mReading, YuvError>, told: &mut [usize; 5]) -> u32
    ensures number { result ≡ (numbers_of (y4m_outcome reading)).number }
    ensures told { told.new ≡ y4m_told (y4m_reading_of reading) }
{
    *told = reading.map_or([0; 5], <[usize; 5]>::from);
    error_numbers::answer_numbers(reading.map(|_| ())).number
}

// What a file's header says and where its planes stand (0), or 19 where these bytes are no Y4M file, with nothing written. told: width, height, the
// sampling's code, the count of pictures, and how many of them were told of; each 0 after 19.
pub fn read_by_numbers(file: &[u8], first: usize, entries: &mut [u64], told: &mut [usize; 5]) -> u32
    ensures { Y4mReadingKept (exported_y4m_reading file.now first entries.old result told.new entries.new) }
{
    let reading = y4m_reader::read_pictures(file, first, entries);
    tell_reading(reading, told)
}

// Writes the file of pictures whose planes stand back to back (0); or answers 19 where a number is not allowed or the bytes are not whole pictures, 16
// where `output` is shorter than the file, and writes nothing. numbers: width, height, the sampling's code. told: the file's size, after 16 too.
pub fn write_by_numbers(
    numbers: &[u32; 3],
    pictures: &[u8],
    output: &mut [u8],
    told: &mut [usize; 1],
) -> u32
    ensures { Y4mWritingKept (exported_y4m_writing numbers.now pictures.now output.old result told.new
        output.new) }
{
    let width = numbers[0] as usize;
    let height = numbers[1] as usize;
    let written = y4m_writer::write_pictures(numbers[2], width, height, pictures, output);
    shift_writer::tell_size(written, told)
}

// Writes one picture, a line FRAME and the planes without their padding (0); or answers 19 where a number is not allowed or a plane is not so many rows of
// its stride, 16 where `output` is shorter than the picture, and writes nothing. numbers: width, height, the sampling's code, the strides of Y, U and
// V. told: the picture's size, after 16 too.
pub fn picture_by_numbers(
    numbers: &[u32; 6],
    y: &[u8],
    u: &[u8],
    v: &[u8],
    output: &mut [u8],
    told: &mut [usize; 1],
) -> u32
    ensures { Y4mPictureKept (exported_y4m_picture numbers.now y.now u.now v.now output.old result
        told.new output.new) }
{
    let frame = PictureFrame {
        width: numbers[0],
        height: numbers[1],
        sampling: numbers[2],
        y_stride: numbers[3],
        u_stride: numbers[4],
        v_stride: numbers[5],
    };
    let written = y4m_picture::write_picture(frame, y, u, v, output);
    shift_writer::tell_size(written, told)
}
