//! How the servers of the tests compile documents.
use x_documents::Setting;
use x_prelude::FromC;

/// Types of C are known, lines of cpp blanked, and names that clash in C published.
pub const SETTING: Setting = Setting {
    files: b"",
    from_c: FromC {
        types: true,
        foreign: false,
    },
    blanks: true,
    warns: true,
    most: 1_000,
};
