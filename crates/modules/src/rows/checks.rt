// Which rows are module versions.
ghost use Rattle.std.specs.Prelude.{◌≡◌, ◌&&◌, true, length, codes, nat_le};
ghost use Rattle.rules.specs.Names.{is_module_version};
ghost use Rattle.std.specs.Option.{option_map};
ghost use Rattle.std.specs.Bool.{then_some};
ghost use Rattle.modules.specs.Rows.{row_names, row_of as held_row, names_of};

use super::{ModuleVersion, Row};
use names::path::{Path, PlainPath};
use versions::version::{PlainVersion, Version};

impl Row {
    // The row of these texts, if each has at most 48 bytes.
    pub fn of(path: &[u8], version: &[u8]) -> Option<Row>
        ensures { option_map row_names result ≡ then_some (nat_le (length path.entry.now) 48 && nat_le (length version.now) 48) (record { path = path.entry.now; version = version.now }) }
    {
        let path = PlainPath::of(path)?;
        let version = PlainVersion::of(version)?;
        Some(Row { path, version })
    }

    // `_` at v0.0.0, which stands where there is none.
    pub fn blank() -> Row
        ensures { row_names result ≡ record { path = codes "_"; version = codes "v0.0.0" } }
    {
        Row {
            path: PlainPath::blank(),
            version: PlainVersion::blank(),
        }
    }

    // The module version that this is, if both texts are well formed.
    pub fn check(&self) -> Option<ModuleVersion>
        ensures { option_map held_row result ≡ then_some (is_module_version (row_names self.now)) self.now }
    {
        let path = self.path.check()?;
        let version = self.version.check()?;
        Some(ModuleVersion { path, version })
    }

    // The module version that this is, where both texts are well formed. Of another row nothing is said of the answer.
    pub fn checked(&self) -> ModuleVersion
        ensures { is_module_version (row_names self.now) ≡ true → names_of result ≡ row_names self.now }
    {
        match self.check() {
            Some(module_version) => module_version,
            None => ModuleVersion::default(),
        }
    }
}

impl ModuleVersion {
    // The module version of these texts, if both are well formed.
    pub fn check(path: &[u8], version: &[u8]) -> Option<ModuleVersion>
        ensures { option_map names_of result ≡ then_some (is_module_version (record { path = path.entry.now; version = version.now })) (record { path = path.entry.now; version = version.now }) }
    {
        let path = Path::check(path)?;
        let version = Version::check(version)?;
        Some(ModuleVersion { path, version })
    }

    pub fn row(&self) -> Row
        ensures { result ≡ held_row self.now }
    {
        Row {
            path: self.path.plain(),
            version: self.version.plain(),
        }
    }
}

// `_` at v0.0.0, which stands where there is none.
impl Default for Row {
    ghost is_default = { λ r. row_names r ≡ record { path = codes "_"; version = codes "v0.0.0" } };

    fn default() -> Row {
        Row::blank()
    }
}

// The same as a module version.
impl Default for ModuleVersion {
    ghost is_default = { λ m. names_of m ≡ record { path = codes "_"; version = codes "v0.0.0" } };

    fn default() -> ModuleVersion {
        ModuleVersion::check(b"_", b"v0.0.0").unwrap()
    }
}
