//! The forms of a section and of its rows.

/// The head of a section's table.
pub(crate) const HEADER: &str = "| number | name | what it means | what to do |
|---|---|---|---|
";

/// The head of a section's table whose rows have a status.
pub(crate) const STATUS_HEADER: &str = "| number | name | what it means | status | what to do |
|---|---|---|---|---|
";

/// Numbers that come in one place, such as the refusals of a Map-Server.
#[derive(Clone, Copy)]
pub(crate) struct Section {
    /// Its title.
    pub(crate) title: &'static str,
    /// What holds for all of its rows.
    pub(crate) introduction: &'static str,
    /// The head of its table.
    pub(crate) header: &'static str,
    /// Its rows.
    pub(crate) rows: &'static [Row],
}

/// A number in a section.
pub(crate) struct Row {
    /// The number that operators see.
    pub(crate) number: u16,
    /// What is printed behind it, as `store F`; empty where nothing is.
    pub(crate) carried: &'static str,
    /// The name in the code; empty where it has none.
    pub(crate) name: &'static str,
    /// What it means, and when it comes.
    pub(crate) meaning: &'static str,
    /// The exit status of a program that it ends; empty where its section tells.
    pub(crate) status: &'static str,
    /// What an operator does about it.
    pub(crate) remedy: &'static str,
}

/// Rows, each with its number, its name, `carried` and `status` where it has them, its meaning and its remedy.
macro_rules! rows {
    ($($number:literal $name:literal $(carried $carried:literal)? $(status $status:literal)?:
        $meaning:literal, $remedy:literal;)*) => {
        &[$(Row {
            number: $number,
            carried: concat!($($carried)?),
            name: $name,
            meaning: $meaning,
            status: concat!($($status)?),
            remedy: $remedy,
        }),*]
    };
}

pub(crate) use rows;
