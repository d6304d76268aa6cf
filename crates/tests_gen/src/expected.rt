//! The first hundred lines of the traces of three numbers, as draw.py writes them.

/// Those of 0.
pub const ZERO: &[u8] = b"1 creat 3 shared
1 fork 2
1 fork 3
1 fork 4
1 fork 5
1 fork 6
1 fork 7
1 fork 8
2 seek 3 55555
2 write 3 r:4076:21
3 seek 3 13267
3 read 3 1952
4 seek 3 15259
4 write 3 r:1603:f7
5 seek 3 23694
5 read 3 1544
6 seek 3 14784
6 read 3 1312
7 seek 3 31921
7 read 3 2895
8 seek 3 18853
8 read 3 3704
2 seek 3 6318
2 write 3 r:3089:36
3 seek 3 60833
3 read 3 3338
4 seek 3 36195
4 read 3 1924
5 seek 3 44559
5 read 3 2967
6 seek 3 24339
6 write 3 r:3436:aa
7 seek 3 32484
7 read 3 2972
8 seek 3 43065
8 read 3 4034
2 seek 3 4046
2 read 3 3502
3 seek 3 51463
3 read 3 3272
4 seek 3 23021
4 read 3 194
5 seek 3 63492
5 write 3 r:2299:be
6 seek 3 19305
6 read 3 3734
7 seek 3 1962
7 read 3 2147
8 seek 3 573
8 read 3 3632
2 seek 3 12272
2 write 3 r:3631:2f
3 seek 3 2756
3 read 3 262
4 seek 3 46564
4 read 3 619
5 seek 3 8734
5 read 3 96
6 seek 3 61760
6 write 3 r:53:23
7 seek 3 41308
7 write 3 r:3749:4f
8 seek 3 22394
8 write 3 r:3150:0f
2 seek 3 41218
2 write 3 r:1759:ab
3 seek 3 57299
3 write 3 r:1146:39
4 seek 3 43373
4 read 3 871
5 seek 3 25790
5 write 3 r:917:0e
6 seek 3 59459
6 read 3 3
7 seek 3 24619
7 write 3 r:1327:86
8 seek 3 17607
8 write 3 r:1952:7c
2 seek 3 35129
2 read 3 917
3 seek 3 24403
3 read 3 1416
4 seek 3 30553
4 read 3 1364
5 seek 3 34740
5 write 3 r:109:d2
6 seek 3 24768
6 read 3 1297
7 seek 3 12208
7 write 3 r:44:c9
8 seek 3 37367
8 read 3 2586
2 seek 3 5836
2 read 3 999
3 seek 3 18501
3 write 3 r:1060:4e
4 seek 3 31430
4 write 3 r:3665:fb
5 seek 3 28594
5 read 3 1834
";

/// Those of 1.
pub const ONE: &[u8] = b"1 creat 3 shared
1 fork 2
1 fork 3
1 fork 4
1 fork 5
1 fork 6
1 fork 7
1 fork 8
2 seek 3 3046
2 read 3 2552
3 seek 3 18257
3 read 3 2273
4 seek 3 60987
4 read 3 1909
5 seek 3 44856
5 read 3 3809
6 seek 3 9684
6 read 3 461
7 seek 3 60963
7 read 3 1387
8 seek 3 56919
8 read 3 690
2 seek 3 39861
2 read 3 2931
3 seek 3 26190
3 write 3 r:2818:96
4 seek 3 46773
4 write 3 r:1835:6a
5 seek 3 60688
5 write 3 r:1408:4f
6 seek 3 5719
6 write 3 r:3556:95
7 seek 3 46207
7 write 3 r:2742:d2
8 seek 3 59314
8 write 3 r:2945:01
2 seek 3 14975
2 write 3 r:155:a6
3 seek 3 29691
3 write 3 r:526:a0
4 seek 3 57378
4 write 3 r:2376:d3
5 seek 3 7168
5 write 3 r:3303:1f
6 seek 3 23130
6 read 3 1566
7 seek 3 24789
7 write 3 r:1070:3a
8 seek 3 40642
8 read 3 1616
2 seek 3 26469
2 read 3 986
3 seek 3 61138
3 read 3 1107
4 seek 3 39061
4 write 3 r:2589:40
5 seek 3 36007
5 write 3 r:608:5d
6 seek 3 1087
6 read 3 3264
7 seek 3 20226
7 read 3 861
8 seek 3 61950
8 write 3 r:1210:d5
2 seek 3 36518
2 read 3 3480
3 seek 3 14580
3 read 3 2412
4 seek 3 3982
4 write 3 r:980:a6
5 seek 3 40248
5 read 3 195
6 seek 3 32191
6 read 3 2628
7 seek 3 58027
7 read 3 3534
8 seek 3 43015
8 read 3 1729
2 seek 3 5995
2 write 3 r:2676:51
3 seek 3 16342
3 read 3 261
4 seek 3 31096
4 read 3 1625
5 seek 3 56783
5 write 3 r:2005:23
6 seek 3 18440
6 read 3 999
7 seek 3 32970
7 read 3 3454
8 seek 3 28326
8 write 3 r:3159:75
2 seek 3 35132
2 read 3 975
3 seek 3 19305
3 write 3 r:479:be
4 seek 3 57869
4 read 3 1949
5 seek 3 57875
5 write 3 r:394:33
";

/// Those of 18446744073709551615.
pub const GREATEST: &[u8] = b"1 creat 3 shared
1 fork 2
1 fork 3
1 fork 4
1 fork 5
1 fork 6
1 fork 7
1 fork 8
2 seek 3 39294
2 read 3 836
3 seek 3 53772
3 write 3 r:31:6f
4 seek 3 9418
4 read 3 3553
5 seek 3 60221
5 write 3 r:2935:15
6 seek 3 58426
6 read 3 1485
7 seek 3 807
7 write 3 r:1393:82
8 seek 3 61492
8 write 3 r:2745:5e
2 seek 3 64366
2 write 3 r:2849:51
3 seek 3 52785
3 write 3 r:281:4e
4 seek 3 47838
4 read 3 2601
5 seek 3 63431
5 write 3 r:1370:1c
6 seek 3 63210
6 write 3 r:1987:b5
7 seek 3 52831
7 read 3 1269
8 seek 3 20018
8 write 3 r:2771:f7
2 seek 3 25539
2 write 3 r:167:8f
3 seek 3 64569
3 read 3 3842
4 seek 3 36277
4 read 3 3577
5 seek 3 10560
5 write 3 r:938:5a
6 seek 3 24233
6 read 3 2059
7 seek 3 39984
7 write 3 r:503:47
8 seek 3 49593
8 read 3 887
2 seek 3 41921
2 write 3 r:3734:bb
3 seek 3 9673
3 read 3 2333
4 seek 3 51127
4 read 3 1037
5 seek 3 31999
5 read 3 1454
6 seek 3 22434
6 read 3 3379
7 seek 3 33044
7 write 3 r:2159:89
8 seek 3 45748
8 read 3 1114
2 seek 3 49463
2 write 3 r:1666:4e
3 seek 3 49733
3 read 3 2796
4 seek 3 39041
4 write 3 r:2229:d4
5 seek 3 17784
5 read 3 579
6 seek 3 64765
6 read 3 882
7 seek 3 40653
7 write 3 r:1913:ea
8 seek 3 62530
8 write 3 r:761:3b
2 seek 3 60254
2 write 3 r:3331:15
3 seek 3 31500
3 write 3 r:996:c0
4 seek 3 29074
4 read 3 988
5 seek 3 36432
5 read 3 3178
6 seek 3 1545
6 read 3 3097
7 seek 3 44071
7 write 3 r:1008:74
8 seek 3 23512
8 write 3 r:1580:4f
2 seek 3 26177
2 write 3 r:594:f8
3 seek 3 6939
3 write 3 r:2017:60
4 seek 3 18566
4 write 3 r:3758:6f
5 seek 3 19657
5 read 3 1164
";
