//! The tables of metadata and their columns (ECMA-335 II.22), and the kinds of coded indexes (II.24.2.6).
//!
//! [`COLUMNS`] and [`CODED_TABLES`] are their only lists: the definitions and the code read both.

ghost use Rattle.std.specs.Prelude.{◌≡◌, ◌≤◌, ◌<◌};
ghost use Rattle.metadata.specs.Checks.{is_list};
ghost use Rattle.metadata.specs.Schema.{kind_number, tag_bits, table_number};

/// A table of metadata, by its number.
#[derive(Clone, Copy, Debug, PartialEq, Eq)]
pub enum Table {
    /// Module (ECMA-335 II.22.30).
    Module = 0x00,
    /// TypeRef (ECMA-335 II.22.38).
    TypeRef = 0x01,
    /// TypeDef (ECMA-335 II.22.37).
    TypeDef = 0x02,
    /// Field (ECMA-335 II.22.15).
    Field = 0x04,
    /// MethodDef (ECMA-335 II.22.26).
    MethodDef = 0x06,
    /// Param (ECMA-335 II.22.33).
    Param = 0x08,
    /// InterfaceImpl (ECMA-335 II.22.23).
    InterfaceImpl = 0x09,
    /// MemberRef (ECMA-335 II.22.25).
    MemberRef = 0x0A,
    /// Constant (ECMA-335 II.22.9).
    Constant = 0x0B,
    /// CustomAttribute (ECMA-335 II.22.10).
    CustomAttribute = 0x0C,
    /// FieldMarshal (ECMA-335 II.22.17).
    FieldMarshal = 0x0D,
    /// DeclSecurity (ECMA-335 II.22.11).
    DeclSecurity = 0x0E,
    /// ClassLayout (ECMA-335 II.22.8).
    ClassLayout = 0x0F,
    /// FieldLayout (ECMA-335 II.22.16).
    FieldLayout = 0x10,
    /// StandAloneSig (ECMA-335 II.22.36).
    StandAloneSig = 0x11,
    /// EventMap (ECMA-335 II.22.12).
    EventMap = 0x12,
    /// Event (ECMA-335 II.22.13).
    Event = 0x14,
    /// PropertyMap (ECMA-335 II.22.35).
    PropertyMap = 0x15,
    /// Property (ECMA-335 II.22.34).
    Property = 0x17,
    /// MethodSemantics (ECMA-335 II.22.28).
    MethodSemantics = 0x18,
    /// MethodImpl (ECMA-335 II.22.27).
    MethodImpl = 0x19,
    /// ModuleRef (ECMA-335 II.22.31).
    ModuleRef = 0x1A,
    /// TypeSpec (ECMA-335 II.22.39).
    TypeSpec = 0x1B,
    /// ImplMap (ECMA-335 II.22.22).
    ImplMap = 0x1C,
    /// FieldRVA (ECMA-335 II.22.18).
    FieldRVA = 0x1D,
    /// Assembly (ECMA-335 II.22.2).
    Assembly = 0x20,
    /// AssemblyProcessor (ECMA-335 II.22.4).
    AssemblyProcessor = 0x21,
    /// AssemblyOS (ECMA-335 II.22.3).
    AssemblyOS = 0x22,
    /// AssemblyRef (ECMA-335 II.22.5).
    AssemblyRef = 0x23,
    /// AssemblyRefProcessor (ECMA-335 II.22.7).
    AssemblyRefProcessor = 0x24,
    /// AssemblyRefOS (ECMA-335 II.22.6).
    AssemblyRefOS = 0x25,
    /// File (ECMA-335 II.22.19).
    File = 0x26,
    /// ExportedType (ECMA-335 II.22.14).
    ExportedType = 0x27,
    /// ManifestResource (ECMA-335 II.22.24).
    ManifestResource = 0x28,
    /// NestedClass (ECMA-335 II.22.32).
    NestedClass = 0x29,
    /// GenericParam (ECMA-335 II.22.20).
    GenericParam = 0x2A,
    /// MethodSpec (ECMA-335 II.22.29).
    MethodSpec = 0x2B,
    /// GenericParamConstraint (ECMA-335 II.22.21).
    GenericParamConstraint = 0x2C,
}

impl Table {
    /// Its number (ECMA-335 II.22), which is below 64.
    pub fn number(self) -> u8
        ensures number { result ≡ table_number self }
        ensures few { result < 64 }
    {
        self as u8
    }
}

/// A heap that columns point into (ECMA-335 II.24.2.3 to II.24.2.5).
#[derive(Clone, Copy, Debug, PartialEq, Eq)]
pub enum Heap {
    /// `#Strings`: a column holds the offset of a text.
    Strings,
    /// `#GUID`: a column holds the number of a GUID, from 1.
    Guids,
    /// `#Blob`: a column holds the offset of a blob.
    Blobs,
}

/// A kind of coded index (ECMA-335 II.24.2.6), by its number.
#[derive(Clone, Copy, Debug, PartialEq, Eq)]
pub enum CodedKind {
    /// TypeDefOrRef.
    TypeDefOrRef = 0,
    /// HasConstant.
    HasConstant = 1,
    /// HasCustomAttribute.
    HasCustomAttribute = 2,
    /// HasFieldMarshal.
    HasFieldMarshal = 3,
    /// HasDeclSecurity.
    HasDeclSecurity = 4,
    /// MemberRefParent.
    MemberRefParent = 5,
    /// HasSemantics.
    HasSemantics = 6,
    /// MethodDefOrRef.
    MethodDefOrRef = 7,
    /// MemberForwarded.
    MemberForwarded = 8,
    /// Implementation.
    Implementation = 9,
    /// CustomAttributeType.
    CustomAttributeType = 10,
    /// ResolutionScope.
    ResolutionScope = 11,
    /// TypeOrMethodDef.
    TypeOrMethodDef = 12,
}

impl CodedKind {
    /// Its number, from 0 to 12.
    pub fn number(self) -> u8
        ensures { result ≡ kind_number self }
    {
        self as u8
    }

    /// How many of the low bits of an index are its tag (ECMA-335 II.24.2.6): 1, 2, 3 or 5.
    pub fn tag_bits(self) -> u8
        ensures bits { result ≡ tag_bits self }
        ensures few { result ≤ 5 }
    {
        match self {
            CodedKind::HasFieldMarshal
            | CodedKind::HasSemantics
            | CodedKind::MethodDefOrRef
            | CodedKind::MemberForwarded
            | CodedKind::TypeOrMethodDef => 1,
            CodedKind::TypeDefOrRef
            | CodedKind::HasConstant
            | CodedKind::HasDeclSecurity
            | CodedKind::Implementation
            | CodedKind::ResolutionScope => 2,
            CodedKind::MemberRefParent | CodedKind::CustomAttributeType => 3,
            CodedKind::HasCustomAttribute => 5,
        }
    }
}

/// What a column's number is (ECMA-335 II.22).
#[derive(Clone, Copy, Debug, PartialEq, Eq)]
pub enum ColumnKind {
    /// A number of two bytes.
    UInt16,
    /// A number of four bytes.
    UInt32,
    /// A place in a heap.
    Heap(Heap),
    /// A row of a table, from 1; 0 is none.
    Row(Table),
    /// A coded index: the row of one of several tables.
    Coded(CodedKind),
    /// The first of the rows of a table that belong to this row.
    List(Table),
}

impl ColumnKind {
    /// Whether it is the start of a list.
    pub(crate) fn is_list(self) -> bool
        ensures { result ≡ is_list self }
    {
        matches!(self, ColumnKind::List(_))
    }
}

/// A column of a table.
#[derive(Clone, Copy, Debug, PartialEq, Eq)]
pub struct Column {
    /// Its table.
    pub table: Table,
    /// What its number is.
    pub kind: ColumnKind,
}

/// A table that the tag of a coded index names.
#[derive(Clone, Copy, Debug, PartialEq, Eq)]
pub struct CodedTable {
    /// The kind of the index.
    pub kind: CodedKind,
    /// The tag.
    pub tag: u8,
    /// The table.
    pub table: Table,
}

/// A column of a table.
macro_rules! column {
    ($table:ident, UInt16) => {
        Column {
            table: Table::$table,
            kind: ColumnKind::UInt16,
        }
    };
    ($table:ident, UInt32) => {
        Column {
            table: Table::$table,
            kind: ColumnKind::UInt32,
        }
    };
    ($table:ident, Heap($heap:ident)) => {
        Column {
            table: Table::$table,
            kind: ColumnKind::Heap(Heap::$heap),
        }
    };
    ($table:ident, Row($of:ident)) => {
        Column {
            table: Table::$table,
            kind: ColumnKind::Row(Table::$of),
        }
    };
    ($table:ident, Coded($of:ident)) => {
        Column {
            table: Table::$table,
            kind: ColumnKind::Coded(CodedKind::$of),
        }
    };
    ($table:ident, List($of:ident)) => {
        Column {
            table: Table::$table,
            kind: ColumnKind::List(Table::$of),
        }
    };
}

/// The table of a tag of a coded index.
macro_rules! tagged {
    ($kind:ident, $tag:literal, $table:ident) => {
        CodedTable {
            kind: CodedKind::$kind,
            tag: $tag,
            table: Table::$table,
        }
    };
}

/// The kinds of coded indexes, by their numbers.
pub const CODED_KINDS: [CodedKind; 13] = [
    CodedKind::TypeDefOrRef,
    CodedKind::HasConstant,
    CodedKind::HasCustomAttribute,
    CodedKind::HasFieldMarshal,
    CodedKind::HasDeclSecurity,
    CodedKind::MemberRefParent,
    CodedKind::HasSemantics,
    CodedKind::MethodDefOrRef,
    CodedKind::MemberForwarded,
    CodedKind::Implementation,
    CodedKind::CustomAttributeType,
    CodedKind::ResolutionScope,
    CodedKind::TypeOrMethodDef,
];

/// The columns of all tables (ECMA-335 II.22): by table, and then in their order.
pub const COLUMNS: [Column; 122] = [
    column!(Module, UInt16), // Generation
    column!(Module, Heap(Strings)), // Name
    column!(Module, Heap(Guids)), // Mvid
    column!(Module, Heap(Guids)), // EncId
    column!(Module, Heap(Guids)), // EncBaseId
    column!(TypeRef, Coded(ResolutionScope)), // ResolutionScope
    column!(TypeRef, Heap(Strings)), // TypeName
    column!(TypeRef, Heap(Strings)), // TypeNamespace
    column!(TypeDef, UInt32), // Flags
    column!(TypeDef, Heap(Strings)), // TypeName
    column!(TypeDef, Heap(Strings)), // TypeNamespace
    column!(TypeDef, Coded(TypeDefOrRef)), // Extends
    column!(TypeDef, List(Field)), // FieldList
    column!(TypeDef, List(MethodDef)), // MethodList
    column!(Field, UInt16), // Flags
    column!(Field, Heap(Strings)), // Name
    column!(Field, Heap(Blobs)), // Signature
    column!(MethodDef, UInt32), // RVA
    column!(MethodDef, UInt16), // ImplFlags
    column!(MethodDef, UInt16), // Flags
    column!(MethodDef, Heap(Strings)), // Name
    column!(MethodDef, Heap(Blobs)), // Signature
    column!(MethodDef, List(Param)), // ParamList
    column!(Param, UInt16), // Flags
    column!(Param, UInt16), // Sequence
    column!(Param, Heap(Strings)), // Name
    column!(InterfaceImpl, Row(TypeDef)), // Class
    column!(InterfaceImpl, Coded(TypeDefOrRef)), // Interface
    column!(MemberRef, Coded(MemberRefParent)), // Class
    column!(MemberRef, Heap(Strings)), // Name
    column!(MemberRef, Heap(Blobs)), // Signature
    column!(Constant, UInt16), // Type
    column!(Constant, Coded(HasConstant)), // Parent
    column!(Constant, Heap(Blobs)), // Value
    column!(CustomAttribute, Coded(HasCustomAttribute)), // Parent
    column!(CustomAttribute, Coded(CustomAttributeType)), // Type
    column!(CustomAttribute, Heap(Blobs)), // Value
    column!(FieldMarshal, Coded(HasFieldMarshal)), // Parent
    column!(FieldMarshal, Heap(Blobs)), // NativeType
    column!(DeclSecurity, UInt16), // Action
    column!(DeclSecurity, Coded(HasDeclSecurity)), // Parent
    column!(DeclSecurity, Heap(Blobs)), // PermissionSet
    column!(ClassLayout, UInt16), // PackingSize
    column!(ClassLayout, UInt32), // ClassSize
    column!(ClassLayout, Row(TypeDef)), // Parent
    column!(FieldLayout, UInt32), // Offset
    column!(FieldLayout, Row(Field)), // Field
    column!(StandAloneSig, Heap(Blobs)), // Signature
    column!(EventMap, Row(TypeDef)), // Parent
    column!(EventMap, List(Event)), // EventList
    column!(Event, UInt16), // EventFlags
    column!(Event, Heap(Strings)), // Name
    column!(Event, Coded(TypeDefOrRef)), // EventType
    column!(PropertyMap, Row(TypeDef)), // Parent
    column!(PropertyMap, List(Property)), // PropertyList
    column!(Property, UInt16), // Flags
    column!(Property, Heap(Strings)), // Name
    column!(Property, Heap(Blobs)), // Type
    column!(MethodSemantics, UInt16), // Semantics
    column!(MethodSemantics, Row(MethodDef)), // Method
    column!(MethodSemantics, Coded(HasSemantics)), // Association
    column!(MethodImpl, Row(TypeDef)), // Class
    column!(MethodImpl, Coded(MethodDefOrRef)), // MethodBody
    column!(MethodImpl, Coded(MethodDefOrRef)), // MethodDeclaration
    column!(ModuleRef, Heap(Strings)), // Name
    column!(TypeSpec, Heap(Blobs)), // Signature
    column!(ImplMap, UInt16), // MappingFlags
    column!(ImplMap, Coded(MemberForwarded)), // MemberForwarded
    column!(ImplMap, Heap(Strings)), // ImportName
    column!(ImplMap, Row(ModuleRef)), // ImportScope
    column!(FieldRVA, UInt32), // RVA
    column!(FieldRVA, Row(Field)), // Field
    column!(Assembly, UInt32), // HashAlgId
    column!(Assembly, UInt16), // MajorVersion
    column!(Assembly, UInt16), // MinorVersion
    column!(Assembly, UInt16), // BuildNumber
    column!(Assembly, UInt16), // RevisionNumber
    column!(Assembly, UInt32), // Flags
    column!(Assembly, Heap(Blobs)), // PublicKey
    column!(Assembly, Heap(Strings)), // Name
    column!(Assembly, Heap(Strings)), // Culture
    column!(AssemblyProcessor, UInt32), // Processor
    column!(AssemblyOS, UInt32), // OSPlatformID
    column!(AssemblyOS, UInt32), // OSMajorVersion
    column!(AssemblyOS, UInt32), // OSMinorVersion
    column!(AssemblyRef, UInt16), // MajorVersion
    column!(AssemblyRef, UInt16), // MinorVersion
    column!(AssemblyRef, UInt16), // BuildNumber
    column!(AssemblyRef, UInt16), // RevisionNumber
    column!(AssemblyRef, UInt32), // Flags
    column!(AssemblyRef, Heap(Blobs)), // PublicKeyOrToken
    column!(AssemblyRef, Heap(Strings)), // Name
    column!(AssemblyRef, Heap(Strings)), // Culture
    column!(AssemblyRef, Heap(Blobs)), // HashValue
    column!(AssemblyRefProcessor, UInt32), // Processor
    column!(AssemblyRefProcessor, Row(AssemblyRef)), // AssemblyRef
    column!(AssemblyRefOS, UInt32), // OSPlatformId
    column!(AssemblyRefOS, UInt32), // OSMajorVersion
    column!(AssemblyRefOS, UInt32), // OSMinorVersion
    column!(AssemblyRefOS, Row(AssemblyRef)), // AssemblyRef
    column!(File, UInt32), // Flags
    column!(File, Heap(Strings)), // Name
    column!(File, Heap(Blobs)), // HashValue
    column!(ExportedType, UInt32), // Flags
    column!(ExportedType, UInt32), // TypeDefId
    column!(ExportedType, Heap(Strings)), // TypeName
    column!(ExportedType, Heap(Strings)), // TypeNamespace
    column!(ExportedType, Coded(Implementation)), // Implementation
    column!(ManifestResource, UInt32), // Offset
    column!(ManifestResource, UInt32), // Flags
    column!(ManifestResource, Heap(Strings)), // Name
    column!(ManifestResource, Coded(Implementation)), // Implementation
    column!(NestedClass, Row(TypeDef)), // NestedClass
    column!(NestedClass, Row(TypeDef)), // EnclosingClass
    column!(GenericParam, UInt16), // Number
    column!(GenericParam, UInt16), // Flags
    column!(GenericParam, Coded(TypeOrMethodDef)), // Owner
    column!(GenericParam, Heap(Strings)), // Name
    column!(MethodSpec, Coded(MethodDefOrRef)), // Method
    column!(MethodSpec, Heap(Blobs)), // Instantiation
    column!(GenericParamConstraint, Row(GenericParam)), // Owner
    column!(GenericParamConstraint, Coded(TypeDefOrRef)), // Constraint
];

/// The tables of the coded indexes (ECMA-335 II.24.2.6): by kind, and then by tag.
pub const CODED_TABLES: [CodedTable; 55] = [
    tagged!(TypeDefOrRef, 0, TypeDef),
    tagged!(TypeDefOrRef, 1, TypeRef),
    tagged!(TypeDefOrRef, 2, TypeSpec),
    tagged!(HasConstant, 0, Field),
    tagged!(HasConstant, 1, Param),
    tagged!(HasConstant, 2, Property),
    tagged!(HasCustomAttribute, 0, MethodDef),
    tagged!(HasCustomAttribute, 1, Field),
    tagged!(HasCustomAttribute, 2, TypeRef),
    tagged!(HasCustomAttribute, 3, TypeDef),
    tagged!(HasCustomAttribute, 4, Param),
    tagged!(HasCustomAttribute, 5, InterfaceImpl),
    tagged!(HasCustomAttribute, 6, MemberRef),
    tagged!(HasCustomAttribute, 7, Module),
    tagged!(HasCustomAttribute, 8, DeclSecurity),
    tagged!(HasCustomAttribute, 9, Property),
    tagged!(HasCustomAttribute, 10, Event),
    tagged!(HasCustomAttribute, 11, StandAloneSig),
    tagged!(HasCustomAttribute, 12, ModuleRef),
    tagged!(HasCustomAttribute, 13, TypeSpec),
    tagged!(HasCustomAttribute, 14, Assembly),
    tagged!(HasCustomAttribute, 15, AssemblyRef),
    tagged!(HasCustomAttribute, 16, File),
    tagged!(HasCustomAttribute, 17, ExportedType),
    tagged!(HasCustomAttribute, 18, ManifestResource),
    tagged!(HasCustomAttribute, 19, GenericParam),
    tagged!(HasCustomAttribute, 20, GenericParamConstraint),
    tagged!(HasCustomAttribute, 21, MethodSpec),
    tagged!(HasFieldMarshal, 0, Field),
    tagged!(HasFieldMarshal, 1, Param),
    tagged!(HasDeclSecurity, 0, TypeDef),
    tagged!(HasDeclSecurity, 1, MethodDef),
    tagged!(HasDeclSecurity, 2, Assembly),
    tagged!(MemberRefParent, 0, TypeDef),
    tagged!(MemberRefParent, 1, TypeRef),
    tagged!(MemberRefParent, 2, ModuleRef),
    tagged!(MemberRefParent, 3, MethodDef),
    tagged!(MemberRefParent, 4, TypeSpec),
    tagged!(HasSemantics, 0, Event),
    tagged!(HasSemantics, 1, Property),
    tagged!(MethodDefOrRef, 0, MethodDef),
    tagged!(MethodDefOrRef, 1, MemberRef),
    tagged!(MemberForwarded, 0, Field),
    tagged!(MemberForwarded, 1, MethodDef),
    tagged!(Implementation, 0, File),
    tagged!(Implementation, 1, AssemblyRef),
    tagged!(Implementation, 2, ExportedType),
    tagged!(CustomAttributeType, 2, MethodDef),
    tagged!(CustomAttributeType, 3, MemberRef),
    tagged!(ResolutionScope, 0, Module),
    tagged!(ResolutionScope, 1, ModuleRef),
    tagged!(ResolutionScope, 2, AssemblyRef),
    tagged!(ResolutionScope, 3, TypeRef),
    tagged!(TypeOrMethodDef, 0, TypeDef),
    tagged!(TypeOrMethodDef, 1, MethodDef),
];
