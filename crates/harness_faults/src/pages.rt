//! A database without tables whose pages are small, so that what is done to them takes little time.
use harness_disks::Image;
use std::alloc::Global;
use std::test::Fail;

/// What stands in its one page, in order: some bytes, and how many zeros follow them.
const PARTS: [(&[u8], usize); 6] = [
    (b"SQLite format 3\0", 0),
    // Pages of 512 bytes, the formats, and the shares of a page that a cell may have.
    (&[2, 0, 1, 1, 0, 64, 32, 32], 3),
    // It was changed once, and has one page.
    (&[1, 0, 0, 0, 1], 27),
    // Texts are UTF-8.
    (&[1], 35),
    // The change that the version is of, and the version.
    (&[1, 0, 46, 122, 112], 0),
    // A leaf without cells.
    (&[13, 0, 0, 0, 0, 2], 406),
];

/// Disks that hold it, and no log.
pub fn small_pages(alloc: Global) -> Result<Image, Fail> {
    let mut image = Image::empty(alloc);
    for (bytes, zeros) in PARTS {
        for byte in bytes {
            image.file.push(*byte)?;
        }
        for _zero in 0..zeros {
            image.file.push(0)?;
        }
    }
    Ok(image)
}
