// What walks are measured over.

use crate::scene::Scene;
use std::alloc::Global;

/// How stores, selects and applications stand together.
#[derive(Clone, Copy)]
pub enum Shape {
    /// As many selects of a chain of stores, all with different indexes.
    Chain,
    /// One select of a chain of stores that have one index.
    Shared,
    /// Applications of one function.
    Calls,
}

impl Shape {
    /// As it is told.
    pub fn text(self) -> &'static str {
        match self {
            Shape::Chain => "chain",
            Shape::Shared => "shared",
            Shape::Calls => "calls",
        }
    }
}

/// So many of them. None where memory ends, or there are more than terms may be.
pub fn scene_of(alloc: Global, shape: Shape, count: u32) -> Option<Scene> {
    let scene = Scene::new(alloc).ok()?;
    match shape {
        Shape::Chain => chain(alloc, scene, count),
        Shape::Shared => shared(alloc, scene, count),
        Shape::Calls => calls(alloc, scene, count),
    }
}

fn chain(alloc: Global, mut scene: Scene, count: u32) -> Option<Scene> {
    let mut array = scene.array(alloc, 0)?;
    let element = scene.word(alloc, 1, 0)?;
    for place in 0..count {
        let index = scene.word(alloc, place.checked_add(2)?, place)?;
        array = scene.store(alloc, array, index, element)?;
    }
    for place in count..count.checked_mul(2)? {
        let index = scene.word(alloc, place.checked_add(2)?, place)?;
        scene.select(alloc, array, index)?;
    }
    Some(scene)
}

fn shared(alloc: Global, mut scene: Scene, count: u32) -> Option<Scene> {
    let mut array = scene.array(alloc, 0)?;
    let element = scene.word(alloc, 1, 0)?;
    let index = scene.word(alloc, 2, 0)?;
    let other = scene.word(alloc, 3, 1)?;
    for _place in 0..count {
        array = scene.store(alloc, array, index, element)?;
    }
    scene.select(alloc, array, other)?;
    Some(scene)
}

fn calls(alloc: Global, mut scene: Scene, count: u32) -> Option<Scene> {
    let argument = scene.word(alloc, 1, 0)?;
    let first = scene.call(alloc, 0, None, argument)?;
    for place in 1..count {
        let argument = scene.word(alloc, place.checked_add(1)?, place)?;
        scene.call(alloc, 0, Some(first), argument)?;
    }
    Some(scene)
}
