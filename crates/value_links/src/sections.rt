// The debug sections of a file, found by their names.
ghost use Rattle.std.specs.Prelude.{◌≡◌, ◌≤◌, ◌<◌, ◌+◌, ◌^◌, length, slice_range};
ghost use Rattle.dw_base.specs.declared.fault.Reach.TheVariants.{Wide};
ghost use Rattle.elf_sections.specs.Faults.{IsRead};
ghost use Rattle.value_links.specs.Sections.{body_named, offset_named};

use dw_base::Span;
use elf_sections::Image;

/// A debug section of a file. One that is missing has no bytes, and stands at 0.
#[derive(Clone, Copy)]
pub(crate) struct DebugSection<'a> {
    pub(crate) bytes: &'a [u8],
    /// The file offset of its first byte.
    pub(crate) origin: u64,
}

// The bytes of a file in a span.
fn bytes_in(file: &[u8], span: Span) -> &[u8]
    requires { span.at + span.len ≤ length file.now }
    ensures { result.now ≡ slice_range file.now span.at (span.at + span.len) }
{
    &file[span.at as usize..(span.at + span.len) as usize]
}

/// The debug section of a file with a name, which is given without its zero byte. `image` was read of the file.
pub(crate) fn debug_section<'a>(file: &'a [u8], image: &Image<'_>, name: &[u8]) -> DebugSection<'a>
    requires image { image.now ≡ file.now }
    requires read { IsRead file.now Wide }
    ensures bytes { result.bytes.now ≡ body_named file.entry.now name.now }
    ensures origin { result.origin ≡ offset_named file.entry.now name.now }
    ensures room { result.origin + length result.bytes.now < 2 ^ 64 }
{
    let Some(number) = image.find(name) else {
        return DebugSection {
            bytes: &file[..0],
            origin: 0,
        };
    };
    DebugSection {
        bytes: bytes_in(file, image.section(number).body),
        origin: image.offset(number),
    }
}
