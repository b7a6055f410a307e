//! Cases, each a module and its counts.

/// What stands between the profile and the module.
const PROFILE_END: &str = "%%\n";

/// A case: what it shows, the row that is wanted or nothing, and the texts of its counts and its module.
#[derive(Clone, Copy)]
pub struct Case<'a> {
    pub title: &'a str,
    pub wanted: &'a str,
    pub profile: &'a str,
    pub source: &'a str,
}

impl<'a> Case<'a> {
    /// The case that a text has, if no part is missing.
    pub fn read(text: &'a str) -> Option<Case<'a>> {
        let (title, rest) = text.split_once('\n')?;
        let (wanted, rest) = rest.split_once('\n')?;
        let (profile, source) = rest.split_once(PROFILE_END)?;
        Some(Case {
            title,
            wanted,
            profile,
            source,
        })
    }
}
