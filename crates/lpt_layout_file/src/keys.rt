//! The keys that there are.

/// The tables of a layout file.
pub(crate) const TABLES: [&str; 2] = ["telemetry", "telecommands"];

/// The keys of the table of telemetry.
pub(crate) const TELEMETRY_KEYS: [&str; 10] = [
    "checksum",
    "version",
    "counter",
    "destination",
    "time",
    "epoch",
    "spare",
    "transaction_id",
    "part_number",
    "part_size",
];

/// The keys of the table of telecommands.
pub(crate) const TELECOMMAND_KEYS: [&str; 7] = [
    "checksum",
    "version",
    "source",
    "spare",
    "transaction_id",
    "part_number",
    "part_size",
];
