//! Shapes of line drawing and of blocks: commands of a path. Written by make_shapes.py.
ghost use Rattle.std.specs.Prelude.{◌≡◌};
ghost use Rattle.screen_svg.specs.Shapes.{found, in_250, in_251, in_252, in_253, in_254, in_255, in_256, in_257, in_258, in_259, shape_of};

/// Those of U+2500 to U+250F.
#[rattlefmt::skip]
fn in_250(number: u32) -> &'static [u8]
    ensures { result.now ≡ found number in_250 }
{
    match number {
        0x2500 => b"m0 10h10v1h-10zm10-10",
        0x2501 => b"m0 9h10v3h-10zm10-9",
        0x2502 => b"m5 0h1v20h-1zm5 0",
        0x2503 => b"m4 0h3v20h-3zm6 0",
        0x2504 => b"m1 10h2v1h-2zm3 0h2v1h-2zm3 0h2v1h-2zm3-10",
        0x2505 => b"m1 9h2v3h-2zm3 0h2v3h-2zm3 0h2v3h-2zm3-9",
        0x2506 => b"m5 1h1v5h-1zm0 7h1v5h-1zm0 7h1v5h-1zm5-15",
        0x2507 => b"m4 1h3v5h-3zm0 7h3v5h-3zm0 7h3v5h-3zm6-15",
        0x2508 => b"m.5 10h1.5v1h-1.5zm2.5 0h1.5v1h-1.5zm2.5 0h1.5v1h-1.5zm2.5 0h1.5v1h-1.5zm2-10",
        0x2509 => b"m.5 9h1.5v3h-1.5zm2.5 0h1.5v3h-1.5zm2.5 0h1.5v3h-1.5zm2.5 0h1.5v3h-1.5zm2-9",
        0x250A => b"m5 1h1v3h-1zm0 5h1v3h-1zm0 5h1v3h-1zm0 5h1v3h-1zm5-16",
        0x250B => b"m4 1h3v3h-3zm0 5h3v3h-3zm0 5h3v3h-3zm0 5h3v3h-3zm6-16",
        0x250C => b"m5 10h5v1h-5zm0 0h1v10h-1zm5-10",
        0x250D => b"m5 9h5v3h-5zm0 0h1v11h-1zm5-9",
        0x250E => b"m4 10h6v1h-6zm0 0h3v10h-3zm6-10",
        0x250F => b"m4 9h6v3h-6zm0 0h3v11h-3zm6-9",
        _ => b"",
    }
}

/// Those of U+2510 to U+251F.
#[rattlefmt::skip]
fn in_251(number: u32) -> &'static [u8]
    ensures { result.now ≡ found number in_251 }
{
    match number {
        0x2510 => b"m0 10h6v1h-6zm5 0h1v10h-1zm5-10",
        0x2511 => b"m0 9h6v3h-6zm5 0h1v11h-1zm5-9",
        0x2512 => b"m0 10h7v1h-7zm4 0h3v10h-3zm6-10",
        0x2513 => b"m0 9h7v3h-7zm4 0h3v11h-3zm6-9",
        0x2514 => b"m5 10h5v1h-5zm0-10h1v11h-1zm5 0",
        0x2515 => b"m5 9h5v3h-5zm0-9h1v12h-1zm5 0",
        0x2516 => b"m4 10h6v1h-6zm0-10h3v11h-3zm6 0",
        0x2517 => b"m4 9h6v3h-6zm0-9h3v12h-3zm6 0",
        0x2518 => b"m0 10h6v1h-6zm5-10h1v11h-1zm5 0",
        0x2519 => b"m0 9h6v3h-6zm5-9h1v12h-1zm5 0",
        0x251A => b"m0 10h7v1h-7zm4-10h3v11h-3zm6 0",
        0x251B => b"m0 9h7v3h-7zm4-9h3v12h-3zm6 0",
        0x251C => b"m5 10h5v1h-5zm0-10h1v20h-1zm5 0",
        0x251D => b"m5 9h5v3h-5zm0-9h1v20h-1zm5 0",
        0x251E => b"m4 10h6v1h-6zm0-10h3v11h-3zm1 10h1v10h-1zm5-10",
        0x251F => b"m4 10h6v1h-6zm1-10h1v11h-1zm-1 10h3v10h-3zm6-10",
        _ => b"",
    }
}

/// Those of U+2520 to U+252F.
#[rattlefmt::skip]
fn in_252(number: u32) -> &'static [u8]
    ensures { result.now ≡ found number in_252 }
{
    match number {
        0x2520 => b"m4 10h6v1h-6zm0-10h3v20h-3zm6 0",
        0x2521 => b"m4 9h6v3h-6zm0-9h3v12h-3zm1 9h1v11h-1zm5-9",
        0x2522 => b"m4 9h6v3h-6zm1-9h1v12h-1zm-1 9h3v11h-3zm6-9",
        0x2523 => b"m4 9h6v3h-6zm0-9h3v20h-3zm6 0",
        0x2524 => b"m0 10h6v1h-6zm5-10h1v20h-1zm5 0",
        0x2525 => b"m0 9h6v3h-6zm5-9h1v20h-1zm5 0",
        0x2526 => b"m0 10h7v1h-7zm4-10h3v11h-3zm1 10h1v10h-1zm5-10",
        0x2527 => b"m0 10h7v1h-7zm5-10h1v11h-1zm-1 10h3v10h-3zm6-10",
        0x2528 => b"m0 10h7v1h-7zm4-10h3v20h-3zm6 0",
        0x2529 => b"m0 9h7v3h-7zm4-9h3v12h-3zm1 9h1v11h-1zm5-9",
        0x252A => b"m0 9h7v3h-7zm5-9h1v12h-1zm-1 9h3v11h-3zm6-9",
        0x252B => b"m0 9h7v3h-7zm4-9h3v20h-3zm6 0",
        0x252C => b"m0 10h10v1h-10zm5 0h1v10h-1zm5-10",
        0x252D => b"m0 9h6v3h-6zm5 1h5v1h-5zm0-1h1v11h-1zm5-9",
        0x252E => b"m0 10h6v1h-6zm5-1h5v3h-5zm0 0h1v11h-1zm5-9",
        0x252F => b"m0 9h10v3h-10zm5 0h1v11h-1zm5-9",
        _ => b"",
    }
}

/// Those of U+2530 to U+253F.
#[rattlefmt::skip]
fn in_253(number: u32) -> &'static [u8]
    ensures { result.now ≡ found number in_253 }
{
    match number {
        0x2530 => b"m0 10h10v1h-10zm4 0h3v10h-3zm6-10",
        0x2531 => b"m0 9h7v3h-7zm4 1h6v1h-6zm0-1h3v11h-3zm6-9",
        0x2532 => b"m0 10h7v1h-7zm4-1h6v3h-6zm0 0h3v11h-3zm6-9",
        0x2533 => b"m0 9h10v3h-10zm4 0h3v11h-3zm6-9",
        0x2534 => b"m0 10h10v1h-10zm5-10h1v11h-1zm5 0",
        0x2535 => b"m0 9h6v3h-6zm5 1h5v1h-5zm0-10h1v12h-1zm5 0",
        0x2536 => b"m0 10h6v1h-6zm5-1h5v3h-5zm0-9h1v12h-1zm5 0",
        0x2537 => b"m0 9h10v3h-10zm5-9h1v12h-1zm5 0",
        0x2538 => b"m0 10h10v1h-10zm4-10h3v11h-3zm6 0",
        0x2539 => b"m0 9h7v3h-7zm4 1h6v1h-6zm0-10h3v12h-3zm6 0",
        0x253A => b"m0 10h7v1h-7zm4-1h6v3h-6zm0-9h3v12h-3zm6 0",
        0x253B => b"m0 9h10v3h-10zm4-9h3v12h-3zm6 0",
        0x253C => b"m0 10h10v1h-10zm5-10h1v20h-1zm5 0",
        0x253D => b"m0 9h6v3h-6zm5 1h5v1h-5zm0-10h1v20h-1zm5 0",
        0x253E => b"m0 10h6v1h-6zm5-1h5v3h-5zm0-9h1v20h-1zm5 0",
        0x253F => b"m0 9h10v3h-10zm5-9h1v20h-1zm5 0",
        _ => b"",
    }
}

/// Those of U+2540 to U+254F.
#[rattlefmt::skip]
fn in_254(number: u32) -> &'static [u8]
    ensures { result.now ≡ found number in_254 }
{
    match number {
        0x2540 => b"m0 10h10v1h-10zm4-10h3v11h-3zm1 10h1v10h-1zm5-10",
        0x2541 => b"m0 10h10v1h-10zm5-10h1v11h-1zm-1 10h3v10h-3zm6-10",
        0x2542 => b"m0 10h10v1h-10zm4-10h3v20h-3zm6 0",
        0x2543 => b"m0 9h7v3h-7zm4 1h6v1h-6zm0-10h3v12h-3zm1 9h1v11h-1zm5-9",
        0x2544 => b"m0 10h7v1h-7zm4-1h6v3h-6zm0-9h3v12h-3zm1 9h1v11h-1zm5-9",
        0x2545 => b"m0 9h7v3h-7zm4 1h6v1h-6zm1-10h1v12h-1zm-1 9h3v11h-3zm6-9",
        0x2546 => b"m0 10h7v1h-7zm4-1h6v3h-6zm1-9h1v12h-1zm-1 9h3v11h-3zm6-9",
        0x2547 => b"m0 9h10v3h-10zm4-9h3v12h-3zm1 9h1v11h-1zm5-9",
        0x2548 => b"m0 9h10v3h-10zm5-9h1v12h-1zm-1 9h3v11h-3zm6-9",
        0x2549 => b"m0 9h7v3h-7zm4 1h6v1h-6zm0-10h3v20h-3zm6 0",
        0x254A => b"m0 10h7v1h-7zm4-1h6v3h-6zm0-9h3v20h-3zm6 0",
        0x254B => b"m0 9h10v3h-10zm4-9h3v20h-3zm6 0",
        0x254C => b"m.5 10h4v1h-4zm5 0h4v1h-4zm4.5-10",
        0x254D => b"m.5 9h4v3h-4zm5 0h4v3h-4zm4.5-9",
        0x254E => b"m5 1h1v8h-1zm0 10h1v8h-1zm5-11",
        0x254F => b"m4 1h3v8h-3zm0 10h3v8h-3zm6-11",
        _ => b"",
    }
}

/// Those of U+2550 to U+255F.
#[rattlefmt::skip]
fn in_255(number: u32) -> &'static [u8]
    ensures { result.now ≡ found number in_255 }
{
    match number {
        0x2550 => b"m0 9h10v1h-10zm0 2h10v1h-10zm10-11",
        0x2551 => b"m4 0h1v20h-1zm2 0h1v20h-1zm4 0",
        0x2552 => b"m5 9h5v1h-5zm0 2h5v1h-5zm0-2h1v11h-1zm5-9",
        0x2553 => b"m4 10h6v1h-6zm0 0h1v10h-1zm2 0h1v10h-1zm4-10",
        0x2554 => b"m4 9h6v1h-6zm2 2h4v1h-4zm-2-2h1v11h-1zm2 2h1v9h-1zm4-11",
        0x2555 => b"m0 9h6v1h-6zm0 2h6v1h-6zm5-2h1v11h-1zm5-9",
        0x2556 => b"m0 10h7v1h-7zm4 0h1v10h-1zm2 0h1v10h-1zm4-10",
        0x2557 => b"m0 9h7v1h-7zm0 2h5v1h-5zm4 0h1v9h-1zm2-2h1v11h-1zm4-9",
        0x2558 => b"m5 9h5v1h-5zm0 2h5v1h-5zm0-11h1v12h-1zm5 0",
        0x2559 => b"m4 10h6v1h-6zm0-10h1v11h-1zm2 0h1v11h-1zm4 0",
        0x255A => b"m6 9h4v1h-4zm-2 2h6v1h-6zm0-11h1v12h-1zm2 0h1v10h-1zm4 0",
        0x255B => b"m0 9h6v1h-6zm0 2h6v1h-6zm5-11h1v12h-1zm5 0",
        0x255C => b"m0 10h7v1h-7zm4-10h1v11h-1zm2 0h1v11h-1zm4 0",
        0x255D => b"m0 9h5v1h-5zm0 2h7v1h-7zm4-11h1v10h-1zm2 0h1v12h-1zm4 0",
        0x255E => b"m5 9h5v1h-5zm0 2h5v1h-5zm0-11h1v20h-1zm5 0",
        0x255F => b"m7 10h3v1h-3zm-3-10h1v20h-1zm2 0h1v20h-1zm4 0",
        _ => b"",
    }
}

/// Those of U+2560 to U+256F.
#[rattlefmt::skip]
fn in_256(number: u32) -> &'static [u8]
    ensures { result.now ≡ found number in_256 }
{
    match number {
        0x2560 => b"m6 9h4v1h-4zm0 2h4v1h-4zm-2-11h1v20h-1zm2 0h1v10h-1zm0 11h1v9h-1zm4-11",
        0x2561 => b"m0 9h6v1h-6zm0 2h6v1h-6zm5-11h1v20h-1zm5 0",
        0x2562 => b"m0 10h4v1h-4zm4-10h1v20h-1zm2 0h1v20h-1zm4 0",
        0x2563 => b"m0 9h5v1h-5zm0 2h5v1h-5zm4-11h1v10h-1zm0 11h1v9h-1zm2-11h1v20h-1zm4 0",
        0x2564 => b"m0 9h10v1h-10zm0 2h10v1h-10zm5 1h1v8h-1zm5-12",
        0x2565 => b"m0 10h10v1h-10zm4 0h1v10h-1zm2 0h1v10h-1zm4-10",
        0x2566 => b"m0 9h10v1h-10zm0 2h5v1h-5zm6 0h4v1h-4zm-2 0h1v9h-1zm2 0h1v9h-1zm4-11",
        0x2567 => b"m0 9h10v1h-10zm0 2h10v1h-10zm5-11h1v9h-1zm5 0",
        0x2568 => b"m0 10h10v1h-10zm4-10h1v11h-1zm2 0h1v11h-1zm4 0",
        0x2569 => b"m0 9h5v1h-5zm6 0h4v1h-4zm-6 2h10v1h-10zm4-11h1v10h-1zm2 0h1v10h-1zm4 0",
        0x256A => b"m0 9h10v1h-10zm0 2h10v1h-10zm5-11h1v20h-1zm5 0",
        0x256B => b"m0 10h10v1h-10zm4-10h1v20h-1zm2 0h1v20h-1zm4 0",
        0x256C => b"m0 9h5v1h-5zm6 0h4v1h-4zm-6 2h5v1h-5zm6 0h4v1h-4zm-2-11h1v10h-1zm0 11h1v9h-1zm2-11h1v10h-1zm0 11h1v9h-1zm4-11",
        0x256D => b"m5 20v-5a5 5 0 0 1 5-5v1a4 4 0 0 0-4 4v5zm5-20",
        0x256E => b"m6 20v-5a6 5 0 0 0-6-5v1a5 4 0 0 1 5 4v5zm4-20",
        0x256F => b"m6 0v6a6 5 0 0 1-6 5v-1a5 4 0 0 0 5-4v-6zm4 0",
        _ => b"",
    }
}

/// Those of U+2570 to U+257F.
#[rattlefmt::skip]
fn in_257(number: u32) -> &'static [u8]
    ensures { result.now ≡ found number in_257 }
{
    match number {
        0x2570 => b"m5 0v6a5 5 0 0 0 5 5v-1a4 4 0 0 1-4-4v-6zm5 0",
        0x2571 => b"m0 20v-1l9.5-19h.5v1l-9.5 19zm10-20",
        0x2572 => b"m0 0h.5l9.5 19v1h-.5l-9.5-19zm10 0",
        0x2573 => b"m0 20v-1l9.5-19h.5v1l-9.5 19zm0-20h.5l9.5 19v1h-.5l-9.5-19zm10 0",
        0x2574 => b"m0 10h6v1h-6zm10-10",
        0x2575 => b"m5 0h1v11h-1zm5 0",
        0x2576 => b"m5 10h5v1h-5zm5-10",
        0x2577 => b"m5 10h1v10h-1zm5-10",
        0x2578 => b"m0 9h6v3h-6zm10-9",
        0x2579 => b"m4 0h3v11h-3zm6 0",
        0x257A => b"m5 9h5v3h-5zm5-9",
        0x257B => b"m4 10h3v10h-3zm6-10",
        0x257C => b"m0 10h6v1h-6zm5-1h5v3h-5zm5-9",
        0x257D => b"m5 0h1v11h-1zm-1 10h3v10h-3zm6-10",
        0x257E => b"m0 9h6v3h-6zm5 1h5v1h-5zm5-10",
        0x257F => b"m4 0h3v11h-3zm1 10h1v10h-1zm5-10",
        _ => b"",
    }
}

/// Those of U+2580 to U+258F.
#[rattlefmt::skip]
fn in_258(number: u32) -> &'static [u8]
    ensures { result.now ≡ found number in_258 }
{
    match number {
        0x2580 => b"m0 0h10v10h-10zm10 0",
        0x2581 => b"m0 17h10v3h-10zm10-17",
        0x2582 => b"m0 15h10v5h-10zm10-15",
        0x2583 => b"m0 12h10v8h-10zm10-12",
        0x2584 => b"m0 10h10v10h-10zm10-10",
        0x2585 => b"m0 7h10v13h-10zm10-7",
        0x2586 => b"m0 5h10v15h-10zm10-5",
        0x2587 => b"m0 2h10v18h-10zm10-2",
        0x2588 => b"m0 0h10v20h-10zm10 0",
        0x2589 => b"m0 0h9v20h-9zm10 0",
        0x258A => b"m0 0h8v20h-8zm10 0",
        0x258B => b"m0 0h6v20h-6zm10 0",
        0x258C => b"m0 0h5v20h-5zm10 0",
        0x258D => b"m0 0h4v20h-4zm10 0",
        0x258E => b"m0 0h3v20h-3zm10 0",
        0x258F => b"m0 0h1v20h-1zm10 0",
        _ => b"",
    }
}

/// Those of U+2590 to U+259F.
#[rattlefmt::skip]
fn in_259(number: u32) -> &'static [u8]
    ensures { result.now ≡ found number in_259 }
{
    match number {
        0x2590 => b"m5 0h5v20h-5zm5 0",
        0x2594 => b"m0 0h10v3h-10zm10 0",
        0x2595 => b"m9 0h1v20h-1zm1 0",
        0x2596 => b"m0 10h5v10h-5zm10-10",
        0x2597 => b"m5 10h5v10h-5zm5-10",
        0x2598 => b"m0 0h5v10h-5zm10 0",
        0x2599 => b"m0 0h5v10h-5zm0 10h5v10h-5zm5 0h5v10h-5zm5-10",
        0x259A => b"m0 0h5v10h-5zm5 10h5v10h-5zm5-10",
        0x259B => b"m0 0h5v10h-5zm5 0h5v10h-5zm-5 10h5v10h-5zm10-10",
        0x259C => b"m0 0h5v10h-5zm5 0h5v10h-5zm0 10h5v10h-5zm5-10",
        0x259D => b"m5 0h5v10h-5zm5 0",
        0x259E => b"m5 0h5v10h-5zm-5 10h5v10h-5zm10-10",
        0x259F => b"m5 0h5v10h-5zm-5 10h5v10h-5zm5 0h5v10h-5zm5-10",
        _ => b"",
    }
}

/// The shape of a character; of most there is none.
#[tactic(auto, unfolding(crate::specs::Shapes::shape_of, anstyle_parse::specs::Stream::Bytes::is_within))]
pub(crate) fn shape_of(c: char) -> &'static [u8]
    ensures { result.now ≡ shape_of c }
{
    let number = u32::from(c);
    match number {
        0x2500..=0x250F => in_250(number),
        0x2510..=0x251F => in_251(number),
        0x2520..=0x252F => in_252(number),
        0x2530..=0x253F => in_253(number),
        0x2540..=0x254F => in_254(number),
        0x2550..=0x255F => in_255(number),
        0x2560..=0x256F => in_256(number),
        0x2570..=0x257F => in_257(number),
        0x2580..=0x258F => in_258(number),
        0x2590..=0x259F => in_259(number),
        _ => b"",
    }
}
