//! How a module is validated.

ghost use Rattle.naga_flags.specs.Bits.{all_validation_flags, default_capabilities};
ghost use Rattle.naga_module_text.specs.Settings.{settings_of_both};
ghost use Rattle.std.specs.Prelude.{◌≡◌, false, unwrap_or};

use bitflags::Flags;
use naga_flags::flags::{Capabilities, ValidationFlags};
use naga_text::number::number_up_to;

/// How a module is validated, as far as lines or a host say.
#[derive(Clone, Copy, Debug, Default, PartialEq)]
pub struct Settings {
    /// Which parts of the module are validated.
    pub flags: Option<ValidationFlags>,
    /// What the module may use.
    pub capabilities: Option<Capabilities>,
    /// Whether overrides have to have their values.
    pub resolved: Option<bool>,
}

impl Settings {
    /// Which parts of the module are validated: all, unless the settings say otherwise.
    pub fn flags(self) -> ValidationFlags
        ensures { result ≡ unwrap_or self.flags (record { 0 = all_validation_flags }) }
    {
        self.flags.unwrap_or_default()
    }

    /// What the module may use: the default, unless the settings say otherwise.
    pub fn capabilities(self) -> Capabilities
        ensures { result ≡ unwrap_or self.capabilities (record { 0 = default_capabilities }) }
    {
        self.capabilities.unwrap_or_default()
    }

    /// Whether overrides have to have their values, which they haven't unless the settings say so.
    pub fn resolved(self) -> bool
        ensures { result ≡ unwrap_or self.resolved false }
    {
        self.resolved.unwrap_or_default()
    }

    /// These settings and those of a host together: what either says is validated, what both allow may be used, and
    /// overrides have to have their values if either says so.
    pub fn and(self, host: Settings) -> Settings
        ensures { result ≡ settings_of_both self host }
    {
        Settings {
            flags: match (self.flags, host.flags) {
                (Some(own), Some(others)) => Some(own.union(others)),
                (own, others) => own.or(others),
            },
            capabilities: match (self.capabilities, host.capabilities) {
                (Some(own), Some(others)) => Some(own.intersection(others)),
                (own, others) => own.or(others),
            },
            resolved: match (self.resolved, host.resolved) {
                (Some(own), Some(others)) => Some(own || others),
                (own, others) => own.or(others),
            },
        }
    }
}

/// The capabilities of names with commas between them.
fn named_capabilities(names: &str) -> Option<Capabilities> {
    let mut all = Capabilities::empty();
    for name in names.split(',') {
        all = all.union(Capabilities::from_name(name)?);
    }
    Some(all)
}

/// The flags of names with commas between them.
fn named_flags(names: &str) -> Option<ValidationFlags> {
    let mut all = ValidationFlags::empty();
    for name in names.split(',') {
        all = all.union(ValidationFlags::from_name(name)?);
    }
    Some(all)
}

/// The capabilities that a word says: a number, `all`, `default`, or names with commas between them.
pub fn capabilities_of(word: &str) -> Option<Capabilities> {
    if let Some(bits) = number_up_to(word.as_bytes(), Capabilities::all().bits()) {
        return Some(Capabilities::from_bits_retain(bits));
    }
    match word {
        "all" => Some(Capabilities::all()),
        "default" => Some(Capabilities::default()),
        _ => named_capabilities(word),
    }
}

/// The flags that a word says: a number, `all`, `default`, or names with commas between them.
pub fn flags_of(word: &str) -> Option<ValidationFlags> {
    let most = u64::from(ValidationFlags::all().bits());
    if let Some(bits) = number_up_to(word.as_bytes(), most)
        && let Ok(bits) = u8::try_from(bits)
    {
        return Some(ValidationFlags::from_bits_retain(bits));
    }
    match word {
        "all" => Some(ValidationFlags::all()),
        "default" => Some(ValidationFlags::default()),
        _ => named_flags(word),
    }
}
