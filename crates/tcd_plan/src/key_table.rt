// The table of keys: the object that each key is in, and the form of its value.
ghost use Rattle.std.specs.Prelude.{◌≡◌, map, true};
ghost use Rattle.std.specs.List.{list_all, range_with_len};
ghost use Rattle.tcd_plan.specs.KeyRows.{parent_key, key_parents, has_matching_key_text, key_rows, row_of, is_row_of_key};

/// The number of the key `root`, which is the whole document.
const ROOT: u8 = 0;

/// The number of the key `rom`.
pub(crate) const ROM: u8 = 1;

/// The number of the key `ram`.
pub(crate) const RAM: u8 = 4;

/// The number of the key `devices`.
pub(crate) const DEVICES: u8 = 7;

/// The number of the key `csa`.
const CSA: u8 = 12;

/// The number of the key `irqs`.
pub(crate) const IRQS: u8 = 20;

/// The number of the key `start`.
const START: u8 = 22;

/// The number of the key `globals`.
const GLOBALS: u8 = 26;

/// The object, or array of objects, that keys are in.
#[derive(Clone, Copy, Debug, PartialEq, Eq)]
pub enum KeyParent {
    Root,
    Rom,
    Ram,
    Devices,
    Csa,
    Start,
    Globals,
}

/// The form of a key's value.
#[derive(Clone, Copy, Debug, PartialEq, Eq)]
pub enum ValueForm {
    /// An array of at least one object.
    Ranges,
    /// An array of objects.
    Objects,
    Object,
    /// The address of a range, in bytes: a multiple of 4.
    At,
    /// The length of a range, in bytes: a multiple of 4, not 0, so that `at` plus the length is at
    /// most 2^32.
    Len,
    /// A number that is at least `lo`.
    Hi,
    Word,
    /// A number up to 255.
    Byte,
    /// 0 or 1.
    Truth,
    /// An array of ascending numbers from 1 to 255.
    Irqs,
    /// An array of `sys` and `aln`, each at most once.
    Traps,
    /// `1.3` or `1.6`; the key may be absent.
    CoreText,
}

/// A row of the table: the number of the key, the object that it is in, its name there, and the
/// form of its value.
#[derive(Clone, Copy)]
pub struct Row {
    pub key: u8,
    pub parent: KeyParent,
    pub name: &'static str,
    pub form: ValueForm,
}

static ROWS: [Row; 31] = [
    Row {
        key: 1,
        parent: KeyParent::Root,
        name: "rom",
        form: ValueForm::Ranges,
    },
    Row {
        key: 2,
        parent: KeyParent::Rom,
        name: "at",
        form: ValueForm::At,
    },
    Row {
        key: 3,
        parent: KeyParent::Rom,
        name: "len",
        form: ValueForm::Len,
    },
    Row {
        key: 4,
        parent: KeyParent::Root,
        name: "ram",
        form: ValueForm::Objects,
    },
    Row {
        key: 5,
        parent: KeyParent::Ram,
        name: "at",
        form: ValueForm::At,
    },
    Row {
        key: 6,
        parent: KeyParent::Ram,
        name: "len",
        form: ValueForm::Len,
    },
    Row {
        key: 7,
        parent: KeyParent::Root,
        name: "devices",
        form: ValueForm::Objects,
    },
    Row {
        key: 8,
        parent: KeyParent::Devices,
        name: "at",
        form: ValueForm::At,
    },
    Row {
        key: 9,
        parent: KeyParent::Devices,
        name: "len",
        form: ValueForm::Len,
    },
    Row {
        key: 10,
        parent: KeyParent::Devices,
        name: "lo",
        form: ValueForm::Word,
    },
    Row {
        key: 11,
        parent: KeyParent::Devices,
        name: "hi",
        form: ValueForm::Hi,
    },
    Row {
        key: 12,
        parent: KeyParent::Root,
        name: "csa",
        form: ValueForm::Object,
    },
    Row {
        key: 13,
        parent: KeyParent::Csa,
        name: "at",
        form: ValueForm::Word,
    },
    Row {
        key: 14,
        parent: KeyParent::Csa,
        name: "areas",
        form: ValueForm::Word,
    },
    Row {
        key: 15,
        parent: KeyParent::Csa,
        name: "reserve",
        form: ValueForm::Word,
    },
    Row {
        key: 16,
        parent: KeyParent::Root,
        name: "sp",
        form: ValueForm::Word,
    },
    Row {
        key: 17,
        parent: KeyParent::Root,
        name: "isp",
        form: ValueForm::Word,
    },
    Row {
        key: 18,
        parent: KeyParent::Root,
        name: "biv",
        form: ValueForm::Word,
    },
    Row {
        key: 19,
        parent: KeyParent::Root,
        name: "btv",
        form: ValueForm::Word,
    },
    Row {
        key: 20,
        parent: KeyParent::Root,
        name: "irqs",
        form: ValueForm::Irqs,
    },
    Row {
        key: 21,
        parent: KeyParent::Root,
        name: "traps",
        form: ValueForm::Traps,
    },
    Row {
        key: 22,
        parent: KeyParent::Root,
        name: "start",
        form: ValueForm::Object,
    },
    Row {
        key: 23,
        parent: KeyParent::Start,
        name: "ie",
        form: ValueForm::Truth,
    },
    Row {
        key: 24,
        parent: KeyParent::Start,
        name: "ccpn",
        form: ValueForm::Byte,
    },
    Row {
        key: 25,
        parent: KeyParent::Start,
        name: "is",
        form: ValueForm::Truth,
    },
    Row {
        key: 26,
        parent: KeyParent::Root,
        name: "globals",
        form: ValueForm::Object,
    },
    Row {
        key: 27,
        parent: KeyParent::Globals,
        name: "a0",
        form: ValueForm::Word,
    },
    Row {
        key: 28,
        parent: KeyParent::Globals,
        name: "a1",
        form: ValueForm::Word,
    },
    Row {
        key: 29,
        parent: KeyParent::Globals,
        name: "a8",
        form: ValueForm::Word,
    },
    Row {
        key: 30,
        parent: KeyParent::Globals,
        name: "a9",
        form: ValueForm::Word,
    },
    Row {
        key: 31,
        parent: KeyParent::Root,
        name: "core",
        form: ValueForm::CoreText,
    },
];

static KEY_PARENTS: [KeyParent; 7] = [
    KeyParent::Root,
    KeyParent::Rom,
    KeyParent::Ram,
    KeyParent::Devices,
    KeyParent::Csa,
    KeyParent::Start,
    KeyParent::Globals,
];

/// Returns the rows of the table of a plan's keys, in the order of the keys' numbers.
#[tactic(auto, unfolding(crate::specs::KeyRows::key_rows))]
pub fn key_table_rows() -> &'static [Row]
    ensures rows { map row_of result.now ≡ key_rows }
    ensures numbers { map (λ r. r.key) key_rows ≡ range_with_len 1 31 }
    ensures texts { list_all has_matching_key_text key_rows ≡ true }
{
    &ROWS
}

/// Returns the objects, and arrays of objects, of a plan's JSON document that hold the plan's keys,
/// in the order of the table of keys.
pub fn key_parents() -> &'static [KeyParent]
    ensures { result.now ≡ key_parents }
{
    &KEY_PARENTS
}

/// Returns the number of the key whose value is this object or array of objects; 0 for the whole
/// document.
pub fn parent_key(parent: KeyParent) -> u8
    ensures { result ≡ parent_key parent }
{
    match parent {
        KeyParent::Root => ROOT,
        KeyParent::Rom => ROM,
        KeyParent::Ram => RAM,
        KeyParent::Devices => DEVICES,
        KeyParent::Csa => CSA,
        KeyParent::Start => START,
        KeyParent::Globals => GLOBALS,
    }
}

/// Returns true if a row of the table is that of the key `name` for the objects at `parent`.
pub(crate) fn is_row_of_key(row: &Row, parent: KeyParent, name: &str) -> bool
    ensures { result ≡ is_row_of_key parent name.now (row_of row.now) }
{
    parent_key(row.parent) == parent_key(parent) && row.name == name
}
