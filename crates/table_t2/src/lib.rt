// The table T2 of exp2m1, 64 pairs, as the crate power_tables has it by its bit patterns. It has a crate of its own because a check of
// 64 pairs is slow.
#![tactic(auto)]

ghost use Rattle.std.specs.Prelude.{◌≡◌, ◌<◌, get_or};
ghost use Rattle.power_tables.specs.Tables.{T2, no_pair};

use pair::Pair;

// For 0 <= i < 64, PAIRS[i] = (h,l) such that h+l is the best double-double approximation of 2^(i/2^12).
const PAIRS: [Pair; 64] = [
    Pair {
        hi: f64::from_bits(0x3ff0000000000000), // 0x1p+0
        lo: f64::from_bits(0x0000000000000000), // 0x0p+0
    },
    Pair {
        hi: f64::from_bits(0x3ff000b175effdc7), // 0x1.000b175effdc7p+0
        lo: f64::from_bits(0x3c9ae8e38c59c72a), // 0x1.ae8e38c59c72ap-54
    },
    Pair {
        hi: f64::from_bits(0x3ff00162f3904052), // 0x1.00162f3904052p+0
        lo: f64::from_bits(0xbc57b5d0d58ea8f4), // -0x1.7b5d0d58ea8f4p-58
    },
    Pair {
        hi: f64::from_bits(0x3ff0021478e11ce6), // 0x1.0021478e11ce6p+0
        lo: f64::from_bits(0x3c94115cb6b16a8e), // 0x1.4115cb6b16a8ep-54
    },
    Pair {
        hi: f64::from_bits(0x3ff002c605e2e8cf), // 0x1.002c605e2e8cfp+0
        lo: f64::from_bits(0xbc8d7c96f201bb2f), // -0x1.d7c96f201bb2fp-55
    },
    Pair {
        hi: f64::from_bits(0x3ff003779a95f959), // 0x1.003779a95f959p+0
        lo: f64::from_bits(0x3c984711d4c35e9f), // 0x1.84711d4c35e9fp-54
    },
    Pair {
        hi: f64::from_bits(0x3ff0042936faa3d8), // 0x1.0042936faa3d8p+0
        lo: f64::from_bits(0xbc80484245243777), // -0x1.0484245243777p-55
    },
    Pair {
        hi: f64::from_bits(0x3ff004dadb113da0), // 0x1.004dadb113dap+0
        lo: f64::from_bits(0xbc94b237da2025f9), // -0x1.4b237da2025f9p-54
    },
    Pair {
        hi: f64::from_bits(0x3ff0058c86da1c0a), // 0x1.0058c86da1c0ap+0
        lo: f64::from_bits(0xbc75e00e62d6b30d), // -0x1.5e00e62d6b30dp-56
    },
    Pair {
        hi: f64::from_bits(0x3ff0063e3a559473), // 0x1.0063e3a559473p+0
        lo: f64::from_bits(0x3c9a1d6cedbb9481), // 0x1.a1d6cedbb9481p-54
    },
    Pair {
        hi: f64::from_bits(0x3ff006eff583fc3d), // 0x1.006eff583fc3dp+0
        lo: f64::from_bits(0xbc94acf197a00142), // -0x1.4acf197a00142p-54
    },
    Pair {
        hi: f64::from_bits(0x3ff007a1b865a8ca), // 0x1.007a1b865a8cap+0
        lo: f64::from_bits(0xbc6eaf2ea42391a5), // -0x1.eaf2ea42391a5p-57
    },
    Pair {
        hi: f64::from_bits(0x3ff0085382faef83), // 0x1.0085382faef83p+0
        lo: f64::from_bits(0x3c7da93f90835f75), // 0x1.da93f90835f75p-56
    },
    Pair {
        hi: f64::from_bits(0x3ff00905554425d4), // 0x1.00905554425d4p+0
        lo: f64::from_bits(0xbc86a79084ab093c), // -0x1.6a79084ab093cp-55
    },
    Pair {
        hi: f64::from_bits(0x3ff009b72f41a12b), // 0x1.009b72f41a12bp+0
        lo: f64::from_bits(0x3c986364f8fbe8f8), // 0x1.86364f8fbe8f8p-54
    },
    Pair {
        hi: f64::from_bits(0x3ff00a6910f3b6fd), // 0x1.00a6910f3b6fdp+0
        lo: f64::from_bits(0xbc882e8e14e3110e), // -0x1.82e8e14e3110ep-55
    },
    Pair {
        hi: f64::from_bits(0x3ff00b1afa5abcbf), // 0x1.00b1afa5abcbfp+0
        lo: f64::from_bits(0xbc84f6b2a7609f71), // -0x1.4f6b2a7609f71p-55
    },
    Pair {
        hi: f64::from_bits(0x3ff00bcceb7707ec), // 0x1.00bcceb7707ecp+0
        lo: f64::from_bits(0xbc7e1a258ea8f71b), // -0x1.e1a258ea8f71bp-56
    },
    Pair {
        hi: f64::from_bits(0x3ff00c7ee448ee02), // 0x1.00c7ee448ee02p+0
        lo: f64::from_bits(0x3c74362ca5bc26f1), // 0x1.4362ca5bc26f1p-56
    },
    Pair {
        hi: f64::from_bits(0x3ff00d30e4d0c483), // 0x1.00d30e4d0c483p+0
        lo: f64::from_bits(0x3c9095a56c919d02), // 0x1.095a56c919d02p-54
    },
    Pair {
        hi: f64::from_bits(0x3ff00de2ed0ee0f5), // 0x1.00de2ed0ee0f5p+0
        lo: f64::from_bits(0xbc6406ac4e81a645), // -0x1.406ac4e81a645p-57
    },
    Pair {
        hi: f64::from_bits(0x3ff00e94fd0398e0), // 0x1.00e94fd0398ep+0
        lo: f64::from_bits(0x3c9b5a6902767e09), // 0x1.b5a6902767e09p-54
    },
    Pair {
        hi: f64::from_bits(0x3ff00f4714af41d3), // 0x1.00f4714af41d3p+0
        lo: f64::from_bits(0xbc991b2060859321), // -0x1.91b2060859321p-54
    },
    Pair {
        hi: f64::from_bits(0x3ff00ff93412315c), // 0x1.00ff93412315cp+0
        lo: f64::from_bits(0x3c8427068ab22306), // 0x1.427068ab22306p-55
    },
    Pair {
        hi: f64::from_bits(0x3ff010ab5b2cbd11), // 0x1.010ab5b2cbd11p+0
        lo: f64::from_bits(0x3c9c1d0660524e08), // 0x1.c1d0660524e08p-54
    },
    Pair {
        hi: f64::from_bits(0x3ff0115d89ff3a8b), // 0x1.0115d89ff3a8bp+0
        lo: f64::from_bits(0xbc9e7bdfb3204be8), // -0x1.e7bdfb3204be8p-54
    },
    Pair {
        hi: f64::from_bits(0x3ff0120fc089ff63), // 0x1.0120fc089ff63p+0
        lo: f64::from_bits(0x3c8843aa8b9cbbc6), // 0x1.843aa8b9cbbc6p-55
    },
    Pair {
        hi: f64::from_bits(0x3ff012c1fecd613b), // 0x1.012c1fecd613bp+0
        lo: f64::from_bits(0xbc734104ee7edae9), // -0x1.34104ee7edae9p-56
    },
    Pair {
        hi: f64::from_bits(0x3ff0137444c9b5b5), // 0x1.0137444c9b5b5p+0
        lo: f64::from_bits(0xbc72b6aeb6176892), // -0x1.2b6aeb6176892p-56
    },
    Pair {
        hi: f64::from_bits(0x3ff01426927f5278), // 0x1.01426927f5278p+0
        lo: f64::from_bits(0x3c7a8cd33b8a1bb3), // 0x1.a8cd33b8a1bb3p-56
    },
    Pair {
        hi: f64::from_bits(0x3ff014d8e7ee8d2f), // 0x1.014d8e7ee8d2fp+0
        lo: f64::from_bits(0x3c72edc08e5da99a), // 0x1.2edc08e5da99ap-56
    },
    Pair {
        hi: f64::from_bits(0x3ff0158b4517bb88), // 0x1.0158b4517bb88p+0
        lo: f64::from_bits(0x3c857ba2dc7e0c73), // 0x1.57ba2dc7e0c73p-55
    },
    Pair {
        hi: f64::from_bits(0x3ff0163da9fb3335), // 0x1.0163da9fb3335p+0
        lo: f64::from_bits(0x3c9b61299ab8cdb7), // 0x1.b61299ab8cdb7p-54
    },
    Pair {
        hi: f64::from_bits(0x3ff016f0169949ed), // 0x1.016f0169949edp+0
        lo: f64::from_bits(0xbc990565902c5f44), // -0x1.90565902c5f44p-54
    },
    Pair {
        hi: f64::from_bits(0x3ff017a28af25567), // 0x1.017a28af25567p+0
        lo: f64::from_bits(0x3c870fc41c5c2d53), // 0x1.70fc41c5c2d53p-55
    },
    Pair {
        hi: f64::from_bits(0x3ff018550706ab62), // 0x1.018550706ab62p+0
        lo: f64::from_bits(0x3c94b9a6e145d76c), // 0x1.4b9a6e145d76cp-54
    },
    Pair {
        hi: f64::from_bits(0x3ff019078ad6a19f), // 0x1.019078ad6a19fp+0
        lo: f64::from_bits(0xbc7008eff5142bf9), // -0x1.008eff5142bf9p-56
    },
    Pair {
        hi: f64::from_bits(0x3ff019ba16628de2), // 0x1.019ba16628de2p+0
        lo: f64::from_bits(0xbc977669f033c7de), // -0x1.77669f033c7dep-54
    },
    Pair {
        hi: f64::from_bits(0x3ff01a6ca9aac5f3), // 0x1.01a6ca9aac5f3p+0
        lo: f64::from_bits(0xbc909bb78eeead0a), // -0x1.09bb78eeead0ap-54
    },
    Pair {
        hi: f64::from_bits(0x3ff01b1f44af9f9e), // 0x1.01b1f44af9f9ep+0
        lo: f64::from_bits(0x3c9371231477ece5), // 0x1.371231477ece5p-54
    },
    Pair {
        hi: f64::from_bits(0x3ff01bd1e77170b4), // 0x1.01bd1e77170b4p+0
        lo: f64::from_bits(0x3c75e7626621eb5b), // 0x1.5e7626621eb5bp-56
    },
    Pair {
        hi: f64::from_bits(0x3ff01c8491f08f08), // 0x1.01c8491f08f08p+0
        lo: f64::from_bits(0xbc9bc72b100828a5), // -0x1.bc72b100828a5p-54
    },
    Pair {
        hi: f64::from_bits(0x3ff01d37442d5070), // 0x1.01d37442d507p+0
        lo: f64::from_bits(0xbc6ce39cbbab8bbe), // -0x1.ce39cbbab8bbep-57
    },
    Pair {
        hi: f64::from_bits(0x3ff01de9fe280ac8), // 0x1.01de9fe280ac8p+0
        lo: f64::from_bits(0x3c816996709da2e2), // 0x1.16996709da2e2p-55
    },
    Pair {
        hi: f64::from_bits(0x3ff01e9cbfe113ef), // 0x1.01e9cbfe113efp+0
        lo: f64::from_bits(0xbc8c11f5239bf535), // -0x1.c11f5239bf535p-55
    },
    Pair {
        hi: f64::from_bits(0x3ff01f4f8958c1c6), // 0x1.01f4f8958c1c6p+0
        lo: f64::from_bits(0x3c8e1d4eb5edc6b3), // 0x1.e1d4eb5edc6b3p-55
    },
    Pair {
        hi: f64::from_bits(0x3ff020025a8f6a35), // 0x1.020025a8f6a35p+0
        lo: f64::from_bits(0xbc9afb99946ee3f0), // -0x1.afb99946ee3fp-54
    },
    Pair {
        hi: f64::from_bits(0x3ff020b533856324), // 0x1.020b533856324p+0
        lo: f64::from_bits(0xbc98f06d8a148a32), // -0x1.8f06d8a148a32p-54
    },
    Pair {
        hi: f64::from_bits(0x3ff02168143b0281), // 0x1.02168143b0281p+0
        lo: f64::from_bits(0xbc82bf310fc54eb6), // -0x1.2bf310fc54eb6p-55
    },
    Pair {
        hi: f64::from_bits(0x3ff0221afcb09e3e), // 0x1.0221afcb09e3ep+0
        lo: f64::from_bits(0xbc9c95a035eb4175), // -0x1.c95a035eb4175p-54
    },
    Pair {
        hi: f64::from_bits(0x3ff022cdece68c4f), // 0x1.022cdece68c4fp+0
        lo: f64::from_bits(0xbc9491793e46834d), // -0x1.491793e46834dp-54
    },
    Pair {
        hi: f64::from_bits(0x3ff02380e4dd22ad), // 0x1.02380e4dd22adp+0
        lo: f64::from_bits(0xbc73e8d0d9c49091), // -0x1.3e8d0d9c49091p-56
    },
    Pair {
        hi: f64::from_bits(0x3ff02433e494b755), // 0x1.02433e494b755p+0
        lo: f64::from_bits(0xbc9314aa16278aa3), // -0x1.314aa16278aa3p-54
    },
    Pair {
        hi: f64::from_bits(0x3ff024e6ec0da046), // 0x1.024e6ec0da046p+0
        lo: f64::from_bits(0x3c848daf888e9651), // 0x1.48daf888e9651p-55
    },
    Pair {
        hi: f64::from_bits(0x3ff02599fb483385), // 0x1.02599fb483385p+0
        lo: f64::from_bits(0x3c856dc8046821f4), // 0x1.56dc8046821f4p-55
    },
    Pair {
        hi: f64::from_bits(0x3ff0264d1244c719), // 0x1.0264d1244c719p+0
        lo: f64::from_bits(0x3c945b42356b9d47), // 0x1.45b42356b9d47p-54
    },
    Pair {
        hi: f64::from_bits(0x3ff027003103b10e), // 0x1.027003103b10ep+0
        lo: f64::from_bits(0xbc7082ef51b61d7e), // -0x1.082ef51b61d7ep-56
    },
    Pair {
        hi: f64::from_bits(0x3ff027b357854772), // 0x1.027b357854772p+0
        lo: f64::from_bits(0x3c72106ed0920a34), // 0x1.2106ed0920a34p-56
    },
    Pair {
        hi: f64::from_bits(0x3ff0286685c9e059), // 0x1.0286685c9e059p+0
        lo: f64::from_bits(0xbc9fd4cf26ea5d0f), // -0x1.fd4cf26ea5d0fp-54
    },
    Pair {
        hi: f64::from_bits(0x3ff02919bbd1d1d8), // 0x1.02919bbd1d1d8p+0
        lo: f64::from_bits(0xbc909f8775e78084), // -0x1.09f8775e78084p-54
    },
    Pair {
        hi: f64::from_bits(0x3ff029ccf99d720a), // 0x1.029ccf99d720ap+0
        lo: f64::from_bits(0x3c564cbba902ca27), // 0x1.64cbba902ca27p-58
    },
    Pair {
        hi: f64::from_bits(0x3ff02a803f2d170d), // 0x1.02a803f2d170dp+0
        lo: f64::from_bits(0x3c94383ef231d207), // 0x1.4383ef231d207p-54
    },
    Pair {
        hi: f64::from_bits(0x3ff02b338c811703), // 0x1.02b338c811703p+0
        lo: f64::from_bits(0x3c94a47a505b3a47), // 0x1.4a47a505b3a47p-54
    },
    Pair {
        hi: f64::from_bits(0x3ff02be6e199c811), // 0x1.02be6e199c811p+0
        lo: f64::from_bits(0x3c9e47120223467f), // 0x1.e47120223467fp-54
    },
];

// The entry by bits 0 to 5 of k.
pub fn t2_at(i: usize) -> Pair
    requires { i < 64 }
    ensures { result ≡ get_or T2 i no_pair }
{
    PAIRS[i]
}
