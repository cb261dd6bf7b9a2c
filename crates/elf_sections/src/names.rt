// The names of sections.
ghost use Rattle.std.specs.Prelude.{◌≡◌};
ghost use Rattle.elf_sections.specs.Names.{is_debug_name, is_zdebug_name, is_written, is_listed};

/// Whether a debug section has this name.
pub fn is_debug_name(name: &[u8]) -> bool
    ensures { result ≡ is_debug_name name.now }
{
    name.starts_with(b".debug_".as_slice())
}

/// Whether a compressed debug section had this name of old.
pub fn is_zdebug_name(name: &[u8]) -> bool
    ensures { result ≡ is_zdebug_name name.now }
{
    name.starts_with(b".zdebug_".as_slice())
}

/// Whether a section of this name is written anew, as a whole or in single fields.
pub fn is_written(name: &[u8]) -> bool
    ensures { result ≡ is_written name.now }
{
    name == b".debug_info".as_slice()
        || name == b".debug_abbrev".as_slice()
        || name == b".debug_line".as_slice()
        || name == b".debug_rnglists".as_slice()
        || name == b".debug_loclists".as_slice()
        || name == b".debug_aranges".as_slice()
}

/// Whether a debug section of this name is known: it is written anew, patched or kept. A name is given without its zero
/// byte.
pub fn is_listed(name: &[u8]) -> bool
    ensures { result ≡ is_listed name.now }
{
    is_written(name)
        || name == b".debug_str".as_slice()
        || name == b".debug_line_str".as_slice()
        || name == b".debug_str_offsets".as_slice()
        || name == b".debug_addr".as_slice()
        || name == b".debug_frame".as_slice()
        || name == b".debug_gdb_scripts".as_slice()
}
