//! Letting go of what holds the trees of modules, in calls that do nothing else.

use object_files::{Image, Object};
use std::mem::drop;

pub fn let_objects_go(objects: Vec<Object>) {
    drop(objects);
}

pub fn let_image_go(image: Image) {
    drop(image);
}
