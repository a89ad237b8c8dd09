//! Links of save areas, PCXI in both layouts, and the words of contexts.
use crate::asserts::same;
use csa_chain::{
    PcxiParts, address_of, link_of, load_lower, load_upper, lower_words, pcxi_parts, pcxi_word,
    upper_words,
};
use tcd_base::Core;

#[test]
fn links_name_addresses(rt: HostRuntime) {
    for (link, addr) in [
        (0xd_0000, 0xd000_0000),
        (0xd_0001, 0xd000_0040),
        (0x8_ffff, 0x803f_ffc0),
    ] {
        same(&rt, &(link, address_of(link)), &(link, addr));
        same(&rt, &(addr, link_of(addr)), &(addr, Some(link)));
    }
    for addr in [0xd000_0020, 0xd040_0000, 0xd800_0000] {
        same(&rt, &(addr, link_of(addr)), &(addr, None));
    }
}

#[test]
fn each_core_has_its_places(rt: HostRuntime) {
    let call = PcxiParts {
        pcpn: 0,
        pie: false,
        ul: true,
        link: 0xd_0000,
    };
    let interrupt = PcxiParts { pie: true, ..call };
    for (core, parts, word) in [
        (Core::V13, call, 0x004d_0000),
        (Core::V13, interrupt, 0x00cd_0000),
        (Core::V16, call, 0x001d_0000),
        (Core::V16, interrupt, 0x003d_0000),
    ] {
        same(&rt, &pcxi_word(core, &parts), &word);
        same(&rt, &pcxi_parts(core, word), &parts);
    }
}

const D: [u32; 16] = [
    0xd0, 0xd1, 0xd2, 0xd3, 0xd4, 0xd5, 0xd6, 0xd7, 0xd8, 0xd9, 0xda, 0xdb, 0xdc, 0xdd, 0xde, 0xdf,
];

const A: [u32; 16] = [
    0xa0, 0xa1, 0xa2, 0xa3, 0xa4, 0xa5, 0xa6, 0xa7, 0xa8, 0xa9, 0xaa, 0xab, 0xac, 0xad, 0xae, 0xaf,
];

#[test]
fn upper_context_goes_and_comes(rt: HostRuntime) {
    let words = upper_words(0x11, 0x22, &D, &A);
    let wanted = [
        0x11, 0x22, 0xaa, 0xab, 0xd8, 0xd9, 0xda, 0xdb, 0xac, 0xad, 0xae, 0xaf, 0xdc, 0xdd, 0xde,
        0xdf,
    ];
    same(&rt, &words, &wanted);
    let mut d = [0; 16];
    let mut a = [0; 16];
    let fields = load_upper(&words, &mut d, &mut a);
    same(&rt, &fields, &(0x11, 0x22));
    same(
        &rt,
        &d,
        &[
            0, 0, 0, 0, 0, 0, 0, 0, 0xd8, 0xd9, 0xda, 0xdb, 0xdc, 0xdd, 0xde, 0xdf,
        ],
    );
    same(
        &rt,
        &a,
        &[
            0, 0, 0, 0, 0, 0, 0, 0, 0, 0, 0xaa, 0xab, 0xac, 0xad, 0xae, 0xaf,
        ],
    );
}

#[test]
fn lower_context_goes_and_comes(rt: HostRuntime) {
    let words = lower_words(0x11, &D, &A);
    let wanted = [
        0x11, 0xab, 0xa2, 0xa3, 0xd0, 0xd1, 0xd2, 0xd3, 0xa4, 0xa5, 0xa6, 0xa7, 0xd4, 0xd5, 0xd6,
        0xd7,
    ];
    same(&rt, &words, &wanted);
    let mut d = [0; 16];
    let mut a = [0; 16];
    let pcxi = load_lower(&words, &mut d, &mut a);
    same(&rt, &pcxi, &0x11);
    same(
        &rt,
        &d,
        &[
            0xd0, 0xd1, 0xd2, 0xd3, 0xd4, 0xd5, 0xd6, 0xd7, 0, 0, 0, 0, 0, 0, 0, 0,
        ],
    );
    same(
        &rt,
        &a,
        &[
            0, 0, 0xa2, 0xa3, 0xa4, 0xa5, 0xa6, 0xa7, 0, 0, 0, 0xab, 0, 0, 0, 0,
        ],
    );
}
