//! The headers of a written file up to its section table.

ghost use Rattle.std.specs.Prelude.{◌≡◌, ◌+◌, ◌++◌, ◌≤◌, OnOk, length};
ghost use Rattle.pe_image.specs.Headers.{pe_at, is_wide};
ghost use Rattle.pe_image.specs.Written.{coff_header, optional_header, dos_fields, coff_fields, optional_fields, directory_fields, section_alignment_of, resources_of};
ghost use Rattle.pe_image.specs.Pieces.{fields_bytes, header_bytes};

use crate::file::FileBytes;
use crate::layout::{
    DIRECTORY_SIZE, DOS_HEADER_SIZE, DOS_SIGNATURE, MAGIC_PE32_PLUS, OPTIONAL_HEADER, PE_SIGNATURE,
    SIGNATURE_PLACE, directories_offset,
};
use crate::numbers::{Number, put_numbers};
use crate::places::FILE_ALIGNMENT;
use rtr_bytes::{NoMemory, Span};

/// IMAGE_FILE_MACHINE_ARM64 (PE/COFF 3.3.1).
const MACHINE_ARM64: u16 = 0xAA64;
/// The bytes of an optional header of PE32+ with all its directories.
pub(crate) const OPTIONAL_HEADER_SIZE: u16 = 240;
/// Characteristics (PE/COFF 3.3.2): IMAGE_FILE_EXECUTABLE_IMAGE, IMAGE_FILE_LARGE_ADDRESS_AWARE and IMAGE_FILE_DLL.
const CHARACTERISTICS: u16 = 0x0002 | 0x0020 | 0x2000;

/// The COFF header (PE/COFF 3.3).
#[derive(Clone, Copy)]
pub(crate) struct CoffHeader {
    pub machine: u16,
    pub number_of_sections: u16,
    pub time_date_stamp: u32,
    pub pointer_to_symbol_table: u32,
    pub number_of_symbols: u32,
    pub size_of_optional_header: u16,
    pub characteristics: u16,
}

impl CoffHeader {
    /// That of a written file with so many sections.
    pub(crate) fn of(number_of_sections: u16) -> CoffHeader
        ensures { result ≡ coff_header number_of_sections }
    {
        CoffHeader {
            machine: MACHINE_ARM64,
            number_of_sections,
            time_date_stamp: 0,
            pointer_to_symbol_table: 0,
            number_of_symbols: 0,
            size_of_optional_header: OPTIONAL_HEADER_SIZE,
            characteristics: CHARACTERISTICS,
        }
    }

    /// Appends the header.
    fn put(&self, out: &mut Vec<u8>) -> Result<(), NoMemory>
        ensures { OnOk result (out.new.items ≡ out.old.items ++ fields_bytes (coff_fields self.now)) }
    {
        put_numbers(
            out,
            &[
                Number::Two(self.machine),
                Number::Two(self.number_of_sections),
                Number::Four(self.time_date_stamp),
                Number::Four(self.pointer_to_symbol_table),
                Number::Four(self.number_of_symbols),
                Number::Two(self.size_of_optional_header),
                Number::Two(self.characteristics),
            ],
        )
    }
}

/// IMAGE_SUBSYSTEM_WINDOWS_CUI (PE/COFF 3.4.2).
const SUBSYSTEM_CONSOLE: u16 = 3;
/// DllCharacteristics: IMAGE_DLLCHARACTERISTICS_HIGH_ENTROPY_VA, .._DYNAMIC_BASE, .._NX_COMPAT and .._TERMINAL_SERVER_AWARE.
const DLL_CHARACTERISTICS: u16 = 0x0020 | 0x0040 | 0x0100 | 0x8000;
/// How many data directories a written file has.
const WRITTEN_DIRECTORIES: u32 = 16;

/// The optional header of PE32+ before its data directories (PE/COFF 3.4.1 and 3.4.2).
#[derive(Clone, Copy)]
pub(crate) struct OptionalHeader {
    pub magic: u16,
    pub major_linker_version: u8,
    pub minor_linker_version: u8,
    pub size_of_code: u32,
    pub size_of_initialized_data: u32,
    pub size_of_uninitialized_data: u32,
    pub address_of_entry_point: u32,
    pub base_of_code: u32,
    pub image_base: u64,
    pub section_alignment: u32,
    pub file_alignment: u32,
    pub major_operating_system_version: u16,
    pub minor_operating_system_version: u16,
    pub major_image_version: u16,
    pub minor_image_version: u16,
    pub major_subsystem_version: u16,
    pub minor_subsystem_version: u16,
    pub win32_version_value: u32,
    pub size_of_image: u32,
    pub size_of_headers: u32,
    pub check_sum: u32,
    pub subsystem: u16,
    pub dll_characteristics: u16,
    pub size_of_stack_reserve: u64,
    pub size_of_stack_commit: u64,
    pub size_of_heap_reserve: u64,
    pub size_of_heap_commit: u64,
    pub loader_flags: u32,
    pub number_of_rva_and_sizes: u32,
}

/// What differs from one written file's optional header to another's: what it says of the sections.
#[derive(Clone, Copy)]
pub(crate) struct Sizes {
    pub size_of_code: u32,
    pub size_of_initialized_data: u32,
    pub base_of_code: u32,
    pub section_alignment: u32,
    pub size_of_image: u32,
    pub size_of_headers: u32,
}

impl OptionalHeader {
    /// That of a written file.
    pub(crate) fn of(sizes: &Sizes) -> OptionalHeader
        ensures { result ≡ optional_header sizes.now }
    {
        OptionalHeader {
            magic: MAGIC_PE32_PLUS,
            major_linker_version: 14,
            minor_linker_version: 0,
            size_of_code: sizes.size_of_code,
            size_of_initialized_data: sizes.size_of_initialized_data,
            size_of_uninitialized_data: 0,
            address_of_entry_point: 0,
            base_of_code: sizes.base_of_code,
            image_base: 0x1_8000_0000,
            section_alignment: sizes.section_alignment,
            file_alignment: FILE_ALIGNMENT as u32,
            major_operating_system_version: 6,
            minor_operating_system_version: 2,
            major_image_version: 0,
            minor_image_version: 0,
            major_subsystem_version: 6,
            minor_subsystem_version: 2,
            win32_version_value: 0,
            size_of_image: sizes.size_of_image,
            size_of_headers: sizes.size_of_headers,
            check_sum: 0,
            subsystem: SUBSYSTEM_CONSOLE,
            dll_characteristics: DLL_CHARACTERISTICS,
            size_of_stack_reserve: 0x10_0000,
            size_of_stack_commit: 0x1000,
            size_of_heap_reserve: 0x10_0000,
            size_of_heap_commit: 0x1000,
            loader_flags: 0,
            number_of_rva_and_sizes: WRITTEN_DIRECTORIES,
        }
    }

    /// Appends the header.
    fn put(&self, out: &mut Vec<u8>) -> Result<(), NoMemory>
        ensures { OnOk result (out.new.items ≡ out.old.items ++ fields_bytes (optional_fields self.now)) }
    {
        put_numbers(
            out,
            &[
                Number::Two(self.magic),
                Number::One(self.major_linker_version),
                Number::One(self.minor_linker_version),
                Number::Four(self.size_of_code),
                Number::Four(self.size_of_initialized_data),
                Number::Four(self.size_of_uninitialized_data),
                Number::Four(self.address_of_entry_point),
                Number::Four(self.base_of_code),
                Number::Eight(self.image_base),
                Number::Four(self.section_alignment),
                Number::Four(self.file_alignment),
                Number::Two(self.major_operating_system_version),
                Number::Two(self.minor_operating_system_version),
                Number::Two(self.major_image_version),
                Number::Two(self.minor_image_version),
                Number::Two(self.major_subsystem_version),
                Number::Two(self.minor_subsystem_version),
                Number::Four(self.win32_version_value),
                Number::Four(self.size_of_image),
                Number::Four(self.size_of_headers),
                Number::Four(self.check_sum),
                Number::Two(self.subsystem),
                Number::Two(self.dll_characteristics),
                Number::Eight(self.size_of_stack_reserve),
                Number::Eight(self.size_of_stack_commit),
                Number::Eight(self.size_of_heap_reserve),
                Number::Eight(self.size_of_heap_commit),
                Number::Four(self.loader_flags),
                Number::Four(self.number_of_rva_and_sizes),
            ],
        )
    }
}

/// The headers of a written file up to its section table.
#[derive(Clone, Copy)]
pub(crate) struct HeaderValues {
    /// The COFF header.
    pub coff: CoffHeader,
    /// The optional header.
    pub optional: OptionalHeader,
    /// Data directory 2. All others but the CLI header's are 0.
    pub resource_table: Span,
    /// Data directory 14.
    pub cli_header: Span,
}

impl HeaderValues {
    /// Appends the MS-DOS header and the PE signature.
    fn put_dos(&self, out: &mut Vec<u8>) -> Result<(), NoMemory>
        ensures { OnOk result (out.new.items ≡ out.old.items ++ fields_bytes dos_fields) }
    {
        put_numbers(
            out,
            &[
                Number::Two(DOS_SIGNATURE),
                Number::Two(0),
                Number::Eight(0),
                Number::Eight(0),
                Number::Eight(0),
                Number::Eight(0),
                Number::Eight(0),
                Number::Eight(0),
                Number::Eight(0),
                Number::Four(DOS_HEADER_SIZE),
                Number::Four(PE_SIGNATURE),
            ],
        )
    }

    /// Appends the sixteen data directories.
    fn put_directories(&self, out: &mut Vec<u8>) -> Result<(), NoMemory>
        ensures { OnOk result (out.new.items ≡ out.old.items
            ++ fields_bytes (directory_fields self.now.resource_table self.now.cli_header)) }
    {
        put_numbers(
            out,
            &[
                Number::Eight(0),
                Number::Eight(0),
                Number::Four(self.resource_table.start),
                Number::Four(self.resource_table.len),
                Number::Eight(0),
                Number::Eight(0),
                Number::Eight(0),
                Number::Eight(0),
                Number::Eight(0),
                Number::Eight(0),
                Number::Eight(0),
                Number::Eight(0),
                Number::Eight(0),
                Number::Eight(0),
                Number::Eight(0),
                Number::Four(self.cli_header.start),
                Number::Four(self.cli_header.len),
                Number::Eight(0),
            ],
        )
    }

    /// Appends the headers.
    pub(crate) fn put(&self, out: &mut Vec<u8>) -> Result<(), NoMemory>
        ensures { OnOk result (out.new.items ≡ out.old.items ++ header_bytes self.now) }
    {
        self.put_dos(out)?;
        self.coff.put(out)?;
        self.optional.put(out)?;
        self.put_directories(out)
    }
}

/// What a written file's headers have from its input's.
#[derive(Clone, Copy)]
pub(crate) struct Copied {
    /// SectionAlignment.
    pub section_alignment: u32,
    /// Data directory 2, of the resources.
    pub resource_table: Span,
}

/// SectionAlignment, from the optional header's start on (PE/COFF 3.4.2).
const SECTION_ALIGNMENT: u32 = 32;
/// The data directory of the resources (PE/COFF 3.4.3).
const RESOURCE_DIRECTORY: u32 = 2;

impl Copied {
    /// What the headers of an input say, of PE32+ or of PE32.
    pub(crate) fn of(input: &FileBytes<'_>, wide: bool) -> Copied
        requires signature { pe_at input.now + 24 ≤ length input.now }
        requires form { wide ≡ is_wide input.now }
        ensures section_alignment { result.section_alignment ≡ section_alignment_of input.now }
        ensures resource_table { result.resource_table ≡ resources_of input.now }
    {
        let optional = input.u32(SIGNATURE_PLACE) + OPTIONAL_HEADER;
        let directories = optional + directories_offset(wide);
        let resources = directories + RESOURCE_DIRECTORY * DIRECTORY_SIZE;
        Copied {
            section_alignment: input.u32(optional + SECTION_ALIGNMENT),
            resource_table: Span {
                start: input.u32(resources),
                len: input.u32(resources + 4),
            },
        }
    }
}
