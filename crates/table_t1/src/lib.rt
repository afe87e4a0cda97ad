// The table T1 of exp2m1, 64 pairs, as the crate power_tables has it by its bit patterns. It has a crate of its own because a check of
// 64 pairs is slow.
#![tactic(auto)]

ghost use Rattle.std.specs.Prelude.{◌≡◌, ◌<◌, get_or};
ghost use Rattle.power_tables.specs.Tables.{T1, no_pair};

use pair::Pair;

// For 0 <= i < 64, PAIRS[i] = (h,l) such that h+l is the best double-double approximation of 2^(i/64).
const PAIRS: [Pair; 64] = [
    Pair {
        hi: f64::from_bits(0x3ff0000000000000), // 0x1p+0
        lo: f64::from_bits(0x0000000000000000), // 0x0p+0
    },
    Pair {
        hi: f64::from_bits(0x3ff02c9a3e778061), // 0x1.02c9a3e778061p+0
        lo: f64::from_bits(0xbc719083535b085d), // -0x1.19083535b085dp-56
    },
    Pair {
        hi: f64::from_bits(0x3ff059b0d3158574), // 0x1.059b0d3158574p+0
        lo: f64::from_bits(0x3c8d73e2a475b465), // 0x1.d73e2a475b465p-55
    },
    Pair {
        hi: f64::from_bits(0x3ff0874518759bc8), // 0x1.0874518759bc8p+0
        lo: f64::from_bits(0x3c6186be4bb284ff), // 0x1.186be4bb284ffp-57
    },
    Pair {
        hi: f64::from_bits(0x3ff0b5586cf9890f), // 0x1.0b5586cf9890fp+0
        lo: f64::from_bits(0x3c98a62e4adc610b), // 0x1.8a62e4adc610bp-54
    },
    Pair {
        hi: f64::from_bits(0x3ff0e3ec32d3d1a2), // 0x1.0e3ec32d3d1a2p+0
        lo: f64::from_bits(0x3c403a1727c57b53), // 0x1.03a1727c57b53p-59
    },
    Pair {
        hi: f64::from_bits(0x3ff11301d0125b51), // 0x1.11301d0125b51p+0
        lo: f64::from_bits(0xbc96c51039449b3a), // -0x1.6c51039449b3ap-54
    },
    Pair {
        hi: f64::from_bits(0x3ff1429aaea92de0), // 0x1.1429aaea92dep+0
        lo: f64::from_bits(0xbc932fbf9af1369e), // -0x1.32fbf9af1369ep-54
    },
    Pair {
        hi: f64::from_bits(0x3ff172b83c7d517b), // 0x1.172b83c7d517bp+0
        lo: f64::from_bits(0xbc819041b9d78a76), // -0x1.19041b9d78a76p-55
    },
    Pair {
        hi: f64::from_bits(0x3ff1a35beb6fcb75), // 0x1.1a35beb6fcb75p+0
        lo: f64::from_bits(0x3c8e5b4c7b4968e4), // 0x1.e5b4c7b4968e4p-55
    },
    Pair {
        hi: f64::from_bits(0x3ff1d4873168b9aa), // 0x1.1d4873168b9aap+0
        lo: f64::from_bits(0x3c9e016e00a2643c), // 0x1.e016e00a2643cp-54
    },
    Pair {
        hi: f64::from_bits(0x3ff2063b88628cd6), // 0x1.2063b88628cd6p+0
        lo: f64::from_bits(0x3c8dc775814a8495), // 0x1.dc775814a8495p-55
    },
    Pair {
        hi: f64::from_bits(0x3ff2387a6e756238), // 0x1.2387a6e756238p+0
        lo: f64::from_bits(0x3c99b07eb6c70573), // 0x1.9b07eb6c70573p-54
    },
    Pair {
        hi: f64::from_bits(0x3ff26b4565e27cdd), // 0x1.26b4565e27cddp+0
        lo: f64::from_bits(0x3c82bd339940e9d9), // 0x1.2bd339940e9d9p-55
    },
    Pair {
        hi: f64::from_bits(0x3ff29e9df51fdee1), // 0x1.29e9df51fdee1p+0
        lo: f64::from_bits(0x3c8612e8afad1255), // 0x1.612e8afad1255p-55
    },
    Pair {
        hi: f64::from_bits(0x3ff2d285a6e4030b), // 0x1.2d285a6e4030bp+0
        lo: f64::from_bits(0x3c90024754db41d5), // 0x1.0024754db41d5p-54
    },
    Pair {
        hi: f64::from_bits(0x3ff306fe0a31b715), // 0x1.306fe0a31b715p+0
        lo: f64::from_bits(0x3c86f46ad23182e4), // 0x1.6f46ad23182e4p-55
    },
    Pair {
        hi: f64::from_bits(0x3ff33c08b26416ff), // 0x1.33c08b26416ffp+0
        lo: f64::from_bits(0x3c932721843659a6), // 0x1.32721843659a6p-54
    },
    Pair {
        hi: f64::from_bits(0x3ff371a7373aa9cb), // 0x1.371a7373aa9cbp+0
        lo: f64::from_bits(0xbc963aeabf42eae2), // -0x1.63aeabf42eae2p-54
    },
    Pair {
        hi: f64::from_bits(0x3ff3a7db34e59ff7), // 0x1.3a7db34e59ff7p+0
        lo: f64::from_bits(0xbc75e436d661f5e3), // -0x1.5e436d661f5e3p-56
    },
    Pair {
        hi: f64::from_bits(0x3ff3dea64c123422), // 0x1.3dea64c123422p+0
        lo: f64::from_bits(0x3c8ada0911f09ebc), // 0x1.ada0911f09ebcp-55
    },
    Pair {
        hi: f64::from_bits(0x3ff4160a21f72e2a), // 0x1.4160a21f72e2ap+0
        lo: f64::from_bits(0xbc5ef3691c309278), // -0x1.ef3691c309278p-58
    },
    Pair {
        hi: f64::from_bits(0x3ff44e086061892d), // 0x1.44e086061892dp+0
        lo: f64::from_bits(0x3c489b7a04ef80d0), // 0x1.89b7a04ef80dp-59
    },
    Pair {
        hi: f64::from_bits(0x3ff486a2b5c13cd0), // 0x1.486a2b5c13cdp+0
        lo: f64::from_bits(0x3c73c1a3b69062f0), // 0x1.3c1a3b69062fp-56
    },
    Pair {
        hi: f64::from_bits(0x3ff4bfdad5362a27), // 0x1.4bfdad5362a27p+0
        lo: f64::from_bits(0x3c7d4397afec42e2), // 0x1.d4397afec42e2p-56
    },
    Pair {
        hi: f64::from_bits(0x3ff4f9b2769d2ca7), // 0x1.4f9b2769d2ca7p+0
        lo: f64::from_bits(0xbc94b309d25957e3), // -0x1.4b309d25957e3p-54
    },
    Pair {
        hi: f64::from_bits(0x3ff5342b569d4f82), // 0x1.5342b569d4f82p+0
        lo: f64::from_bits(0xbc807abe1db13cad), // -0x1.07abe1db13cadp-55
    },
    Pair {
        hi: f64::from_bits(0x3ff56f4736b527da), // 0x1.56f4736b527dap+0
        lo: f64::from_bits(0x3c99bb2c011d93ad), // 0x1.9bb2c011d93adp-54
    },
    Pair {
        hi: f64::from_bits(0x3ff5ab07dd485429), // 0x1.5ab07dd485429p+0
        lo: f64::from_bits(0x3c96324c054647ad), // 0x1.6324c054647adp-54
    },
    Pair {
        hi: f64::from_bits(0x3ff5e76f15ad2148), // 0x1.5e76f15ad2148p+0
        lo: f64::from_bits(0x3c9ba6f93080e65e), // 0x1.ba6f93080e65ep-54
    },
    Pair {
        hi: f64::from_bits(0x3ff6247eb03a5585), // 0x1.6247eb03a5585p+0
        lo: f64::from_bits(0xbc9383c17e40b497), // -0x1.383c17e40b497p-54
    },
    Pair {
        hi: f64::from_bits(0x3ff6623882552225), // 0x1.6623882552225p+0
        lo: f64::from_bits(0xbc9bb60987591c34), // -0x1.bb60987591c34p-54
    },
    Pair {
        hi: f64::from_bits(0x3ff6a09e667f3bcd), // 0x1.6a09e667f3bcdp+0
        lo: f64::from_bits(0xbc9bdd3413b26456), // -0x1.bdd3413b26456p-54
    },
    Pair {
        hi: f64::from_bits(0x3ff6dfb23c651a2f), // 0x1.6dfb23c651a2fp+0
        lo: f64::from_bits(0xbc6bbe3a683c88ab), // -0x1.bbe3a683c88abp-57
    },
    Pair {
        hi: f64::from_bits(0x3ff71f75e8ec5f74), // 0x1.71f75e8ec5f74p+0
        lo: f64::from_bits(0xbc816e4786887a99), // -0x1.16e4786887a99p-55
    },
    Pair {
        hi: f64::from_bits(0x3ff75feb564267c9), // 0x1.75feb564267c9p+0
        lo: f64::from_bits(0xbc90245957316dd3), // -0x1.0245957316dd3p-54
    },
    Pair {
        hi: f64::from_bits(0x3ff7a11473eb0187), // 0x1.7a11473eb0187p+0
        lo: f64::from_bits(0xbc841577ee04992f), // -0x1.41577ee04992fp-55
    },
    Pair {
        hi: f64::from_bits(0x3ff7e2f336cf4e62), // 0x1.7e2f336cf4e62p+0
        lo: f64::from_bits(0x3c705d02ba15797e), // 0x1.05d02ba15797ep-56
    },
    Pair {
        hi: f64::from_bits(0x3ff82589994cce13), // 0x1.82589994cce13p+0
        lo: f64::from_bits(0xbc9d4c1dd41532d8), // -0x1.d4c1dd41532d8p-54
    },
    Pair {
        hi: f64::from_bits(0x3ff868d99b4492ed), // 0x1.868d99b4492edp+0
        lo: f64::from_bits(0xbc9fc6f89bd4f6ba), // -0x1.fc6f89bd4f6bap-54
    },
    Pair {
        hi: f64::from_bits(0x3ff8ace5422aa0db), // 0x1.8ace5422aa0dbp+0
        lo: f64::from_bits(0x3c96e9f156864b27), // 0x1.6e9f156864b27p-54
    },
    Pair {
        hi: f64::from_bits(0x3ff8f1ae99157736), // 0x1.8f1ae99157736p+0
        lo: f64::from_bits(0x3c85cc13a2e3976c), // 0x1.5cc13a2e3976cp-55
    },
    Pair {
        hi: f64::from_bits(0x3ff93737b0cdc5e5), // 0x1.93737b0cdc5e5p+0
        lo: f64::from_bits(0xbc675fc781b57ebc), // -0x1.75fc781b57ebcp-57
    },
    Pair {
        hi: f64::from_bits(0x3ff97d829fde4e50), // 0x1.97d829fde4e5p+0
        lo: f64::from_bits(0xbc9d185b7c1b85d1), // -0x1.d185b7c1b85d1p-54
    },
    Pair {
        hi: f64::from_bits(0x3ff9c49182a3f090), // 0x1.9c49182a3f09p+0
        lo: f64::from_bits(0x3c7c7c46b071f2be), // 0x1.c7c46b071f2bep-56
    },
    Pair {
        hi: f64::from_bits(0x3ffa0c667b5de565), // 0x1.a0c667b5de565p+0
        lo: f64::from_bits(0xbc9359495d1cd533), // -0x1.359495d1cd533p-54
    },
    Pair {
        hi: f64::from_bits(0x3ffa5503b23e255d), // 0x1.a5503b23e255dp+0
        lo: f64::from_bits(0xbc9d2f6edb8d41e1), // -0x1.d2f6edb8d41e1p-54
    },
    Pair {
        hi: f64::from_bits(0x3ffa9e6b5579fdbf), // 0x1.a9e6b5579fdbfp+0
        lo: f64::from_bits(0x3c90fac90ef7fd31), // 0x1.0fac90ef7fd31p-54
    },
    Pair {
        hi: f64::from_bits(0x3ffae89f995ad3ad), // 0x1.ae89f995ad3adp+0
        lo: f64::from_bits(0x3c97a1cd345dcc81), // 0x1.7a1cd345dcc81p-54
    },
    Pair {
        hi: f64::from_bits(0x3ffb33a2b84f15fb), // 0x1.b33a2b84f15fbp+0
        lo: f64::from_bits(0xbc62805e3084d708), // -0x1.2805e3084d708p-57
    },
    Pair {
        hi: f64::from_bits(0x3ffb7f76f2fb5e47), // 0x1.b7f76f2fb5e47p+0
        lo: f64::from_bits(0xbc75584f7e54ac3b), // -0x1.5584f7e54ac3bp-56
    },
    Pair {
        hi: f64::from_bits(0x3ffbcc1e904bc1d2), // 0x1.bcc1e904bc1d2p+0
        lo: f64::from_bits(0x3c823dd07a2d9e84), // 0x1.23dd07a2d9e84p-55
    },
    Pair {
        hi: f64::from_bits(0x3ffc199bdd85529c), // 0x1.c199bdd85529cp+0
        lo: f64::from_bits(0x3c811065895048dd), // 0x1.11065895048ddp-55
    },
    Pair {
        hi: f64::from_bits(0x3ffc67f12e57d14b), // 0x1.c67f12e57d14bp+0
        lo: f64::from_bits(0x3c92884dff483cad), // 0x1.2884dff483cadp-54
    },
    Pair {
        hi: f64::from_bits(0x3ffcb720dcef9069), // 0x1.cb720dcef9069p+0
        lo: f64::from_bits(0x3c7503cbd1e949db), // 0x1.503cbd1e949dbp-56
    },
    Pair {
        hi: f64::from_bits(0x3ffd072d4a07897c), // 0x1.d072d4a07897cp+0
        lo: f64::from_bits(0xbc9cbc3743797a9c), // -0x1.cbc3743797a9cp-54
    },
    Pair {
        hi: f64::from_bits(0x3ffd5818dcfba487), // 0x1.d5818dcfba487p+0
        lo: f64::from_bits(0x3c82ed02d75b3707), // 0x1.2ed02d75b3707p-55
    },
    Pair {
        hi: f64::from_bits(0x3ffda9e603db3285), // 0x1.da9e603db3285p+0
        lo: f64::from_bits(0x3c9c2300696db532), // 0x1.c2300696db532p-54
    },
    Pair {
        hi: f64::from_bits(0x3ffdfc97337b9b5f), // 0x1.dfc97337b9b5fp+0
        lo: f64::from_bits(0xbc91a5cd4f184b5c), // -0x1.1a5cd4f184b5cp-54
    },
    Pair {
        hi: f64::from_bits(0x3ffe502ee78b3ff6), // 0x1.e502ee78b3ff6p+0
        lo: f64::from_bits(0x3c839e8980a9cc8f), // 0x1.39e8980a9cc8fp-55
    },
    Pair {
        hi: f64::from_bits(0x3ffea4afa2a490da), // 0x1.ea4afa2a490dap+0
        lo: f64::from_bits(0xbc9e9c23179c2893), // -0x1.e9c23179c2893p-54
    },
    Pair {
        hi: f64::from_bits(0x3ffefa1bee615a27), // 0x1.efa1bee615a27p+0
        lo: f64::from_bits(0x3c9dc7f486a4b6b0), // 0x1.dc7f486a4b6bp-54
    },
    Pair {
        hi: f64::from_bits(0x3fff50765b6e4540), // 0x1.f50765b6e454p+0
        lo: f64::from_bits(0x3c99d3e12dd8a18b), // 0x1.9d3e12dd8a18bp-54
    },
    Pair {
        hi: f64::from_bits(0x3fffa7c1819e90d8), // 0x1.fa7c1819e90d8p+0
        lo: f64::from_bits(0x3c874853f3a5931e), // 0x1.74853f3a5931ep-55
    },
];

// The entry by bits 6 to 11 of k.
pub fn t1_at(i: usize) -> Pair
    requires { i < 64 }
    ensures { result ≡ get_or T1 i no_pair }
{
    PAIRS[i]
}
