ghost use Rattle.std.specs.Prelude.{◌≡◌};
ghost use Rattle.y4m_file.specs.Known.{IsRead};

use y4m_line::HeaderLine;

// A file that the check let through: its bytes, what its header's line says, and how many pictures it has.
#[derive(Clone, Copy, Debug, PartialEq, Eq)]
pub struct Y4mRead<'a> {
    pub bytes: &'a [u8],
    pub header: HeaderLine,
    pub count: usize,
    ghost is_read: { IsRead bytes.now header count },
}

impl<'a> Y4mRead<'a> {
    ghost use Rattle.std.specs.Prelude.{◌≡◌, ◌≤◌, ◌^◌, ◌↔◌, true, IfSome, IsSome};
    ghost use Rattle.y4m_file.specs.Check.{is_y4m};
    ghost use Rattle.y4m_file.specs.Read.{luma_in, chroma_in};

    // These bytes as a file; none where they are no file.
    pub fn open(bytes: &'a [u8]) -> Option<Y4mRead<'a>>
        ensures is_file { IsSome result ↔ (is_y4m bytes.now ≡ true) }
        ensures bytes { IfSome result (λ read. read.bytes.now ≡ bytes.now) }
    {
        let end = y4m_line::line_end(bytes)?;
        let header = y4m_line::read_header(&bytes[..end])?;
        let planes = crate::plane_bytes(header.sampling, header.width, header.height);
        let count = crate::count_pictures(&bytes[end + 1..], planes)?;
        Some(Y4mRead {
            bytes,
            header,
            count,
        })
    }

    // The bytes of the luma plane of each picture.
    pub fn luma_size(&self) -> usize
        ensures { (result ≡ luma_in self.now.bytes.now) × (result ≤ 2 ^ 32) }
    {
        shift_file::luma_size(self.header.width, self.header.height)
    }

    // The bytes of each of its chroma planes.
    pub fn chroma_size(&self) -> usize
        ensures { (result ≡ chroma_in self.now.bytes.now) × (result ≤ 2 ^ 32) }
    {
        let header = self.header;
        shift_file::chroma_size(header.sampling, header.width, header.height)
    }
}
