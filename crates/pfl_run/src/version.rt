//! What this program was made from, as `./lab release` writes it. The sum of the sources leaves this file out.

/// The release, the sum of its sources, and the logic that proves them.
pub(crate) const VERSION: &str =
    "release 27, sources 9942a8f05bfdbcf3108a8ffb7907e4affe885a301129bb1b695f4778671d2dc8, logic dac8208d650f15bf";
