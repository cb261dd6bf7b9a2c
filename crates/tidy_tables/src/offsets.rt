// Offsets in a file.
ghost use Rattle.std.specs.Prelude.{◌≡◌, ◌≤◌, ◌+◌, length};
ghost use Rattle.value_links.specs.Sections.{body_named, offset_named};

use value_links::World;

/// The offset in the file of a place in its section with a name, or of the section's end. The name is given without its zero byte, and a
/// section that is missing stands at 0.
pub fn offset_in_file(world: &World<'_>, name: &[u8], place: u64) -> u64
    requires { place ≤ length (body_named world.now.image name.now) }
    ensures { result ≡ offset_named world.now.image name.now + place }
{
    let image = world.image();
    // The image was read, so that the section ends below 2^64.
    let _file = image.whole();
    match image.find(name) {
        Some(number) => image.offset(number) + place,
        None => place,
    }
}
