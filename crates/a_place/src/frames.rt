//! The frame of a function, by its places and its memory objects.

ghost use Rattle.std.specs.Prelude.{◌≡◌, ◌<◌, ◌^◌};
ghost use Rattle.s_linear.specs.Frame.{frame_size, object_room, objects_at};

use g_graph::Object;
use s_linear::{Frame, Places};

/// The frame of a function with these places and memory objects.
pub fn frame(places: &Places, objects: &[Object]) -> Frame
    requires { frame_size places.now.count objects.now < 2 ^ 32 }
    ensures { result ≡ record {
      size = frame_size places.now.count objects.now;
      objects_at = objects_at places.now.count;
    } }
{
    let mut room = 4 * places.count as u64;
    for object in objects {
        room += object_room(object);
    }
    Frame {
        size: ((room + 19) / 16 * 16) as u32,
        objects_at: 4 * places.count.saturating_sub(11),
    }
}

fn object_room(object: &Object) -> u64
    ensures { result ≡ object_room object.now }
{
    (object.size as u64 + 3) / 4 * 4 + 4
}
