// A section of a file.
ghost use Rattle.std.specs.Prelude.{◌≡◌, ◌==◌, ◌&&◌, not, bit_and};

use dw_base::Span;

/// A section by the fields of its header (System V ABI, ELF-64 section header). Spans count from the file's first byte.
#[derive(Clone, Copy, Debug, PartialEq, Eq)]
pub struct Section {
    /// The name without its zero byte; the empty span at 0 where no section holds the names.
    pub name: Span,
    /// sh_type.
    pub kind: u32,
    /// sh_flags.
    pub flags: u64,
    /// sh_offset and sh_size; the empty span at 0 where the type is SHT_NULL (0) or SHT_NOBITS (8).
    pub body: Span,
    /// sh_link.
    pub link: u32,
    /// sh_info.
    pub info: u32,
    /// sh_addralign.
    pub align: u64,
}

impl Section {
    // Whether the section holds bytes of the file.
    pub(crate) fn has_bytes(&self) -> bool
        ensures { result ≡ (not (self.now.kind == 0) && not (self.now.kind == 8)) }
    {
        self.kind != 0 && self.kind != 8
    }

    // Whether the section is loaded.
    pub(crate) fn is_loaded(&self) -> bool
        ensures { result ≡ not (bit_and self.now.flags 2 == 0) }
    {
        self.flags & 2 != 0
    }
}
