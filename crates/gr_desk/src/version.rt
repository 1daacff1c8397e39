//! What `--version` says.

/// The version of the program, that of the files that it keeps, and the line of the toolchain that
/// proved it, each on a line of its own.
pub const VERSION: &str = "gr_desk 1.0.0\nschema 2\nrattle-kit-13b logic dac8208d650f15bf\n";
