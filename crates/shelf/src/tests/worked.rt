//! Scripts, each with what it writes.

/// A script, and its transcript.
pub const WORKED: [(&[u8], &[u8]); 23] = [
    // An empty script.
    (b"", b""),
    // Every kind, and its order.
    (
        b"new a ArrayList\nnew b LinkedHashSet\nnew c TreeSet\nnew d TreeSetReverse\nnew e TreeSetLength\nnew f LinkedHashMap\nnew g TreeMap\nnew h TreeMapReverse\nnew i TreeMapLength\na.add(10)\na.add(a)\na.add(2)\na.add(10)\na\nb.addAll(a)\nb\nc.addAll(a)\nc\nd.addAll(a)\nd\ne.addAll(a)\ne\nf.put(10, x)\nf.put(a, y)\nf.put(2, z)\nf\ng.putAll(f)\ng\nh.putAll(f)\nh\ni.putAll(f)\ni\nnew j Multiset\n",
        b"ok\nok\nok\nok\nok\nok\nok\nok\nok\ntrue\ntrue\ntrue\ntrue\n[10, a, 2, 10]\ntrue\n[10, a, 2]\ntrue\n[2, 10, a]\ntrue\n[a, 10, 2]\ntrue\n[2, a, 10]\nnull\nnull\nnull\n{10=x, a=y, 2=z}\nok\n{2=z, 10=x, a=y}\nok\n{a=y, 10=x, 2=z}\nok\n{2=z, a=y, 10=x}\n?call\n",
    ),
    // A tree map, put whole into a linked one.
    (
        b"new m TreeMap\nm.put(b, 1)\nnew n LinkedHashMap\nn.putAll(m)\nn\n",
        b"ok\nnull\nok\nok\n{b=1}\n",
    ),
    // A linked map and its set of keys.
    (
        b"new m LinkedHashMap\nm.put(a, 1)\nm.put(a, 2)\nm\nm.get(b)\nm.keySet.remove(a)\nm\nm.remove(a)\n",
        b"ok\nnull\n1\n{a=2}\nnull\ntrue\n{}\nnull\n",
    ),
    // A view with a name is live; what has no meaning in its place is refused.
    (
        b"new m LinkedHashMap\nlet k = m.keySet\nk.add(a)\nm.put(a, 1)\nk.contains(a)\nk\nlet m = k\nk.size\nlet z = m.size\nz\nlet q = r\nm.get([1 .. b])\nit i = k\nlet 1 = m\nm.containsAll(k-k)\nm.containsAll(j)\nm.containsAll(k)\n",
        b"ok\nok\nUnsupportedOperationException\nnull\ntrue\n[a]\nok\n1\n?call\n?name\n?name\n?call\nok\n?syntax\n?call\n?name\ntrue\n",
    ),
    // A filter of values hides, puts in place, and clears what it shows.
    (
        b"new m LinkedHashMap\nm.put(a, 1)\nm.put(b, 2)\nm.put(d, 7)\nlet f = m.filterValues(even)\nf.put(a, 4)\nm\nf.put(c, 3)\nf.clear\nm\nf.size\nf.isEmpty\n",
        b"ok\nnull\nnull\nnull\nok\nnull\n{a=4, b=2, d=7}\nIllegalArgumentException\nok\n{d=7}\n0\ntrue\n",
    ),
    // Windows of a sorted set.
    (
        b"new s TreeSet\ns.add(5)\ns.add(a)\ns.add(1)\ns.add(3)\ns\nlet w = s.within([2..+\xE2\x88\x9E))\nw.descending.first\nw.add(1)\nw.within([1..4])\nw.within((-\xE2\x88\x9E..4])\nw.clear\ns\nw.first\ns.within([3..1])\ns.within(3)\n",
        b"ok\ntrue\ntrue\ntrue\ntrue\n[1, 3, 5, a]\nok\na\nIllegalArgumentException\nIllegalArgumentException\n[3]\nok\n[1]\nNoSuchElementException\nIllegalArgumentException\n?call\n",
    ),
    // A set in reverse order, whose windows are read by that order.
    (
        b"new s TreeSetReverse\ns.add(1)\ns.add(2)\ns.add(3)\ns\ns.first\nlet w = s.within([2..+\xE2\x88\x9E))\nw\nw.add(3)\nw.within((-\xE2\x88\x9E..1])\nw.within((-\xE2\x88\x9E..3])\ns.within([1..3])\ns.within([2..2])\ns.descending\ns.descending.last\n",
        b"ok\ntrue\ntrue\ntrue\n[3, 2, 1]\n3\nok\n[2, 1]\nIllegalArgumentException\n[2, 1]\nIllegalArgumentException\nIllegalArgumentException\n[2]\n[1, 2, 3]\n3\n",
    ),
    // A map whose keys go by the length of their spelling, put whole into another.
    (
        b"new q TreeMapLength\nq.put(bb, 1)\nq.put(c, 2)\nq.put(10, 3)\nq\nq.firstKey\nq.lastKey\nnew n LinkedHashMap\nn.put(10, 9)\nn.putAll(q)\nn\nn.filterKeys(isInt).putAll(q)\nn.unmodifiable.putAll(q)\nn.containsValue(3)\nn.entrySet.contains(c, 2)\nn.entrySet.remove(c, 3)\nn.values.remove(1)\nn\n",
        b"ok\nnull\nnull\nnull\n{c=2, 10=3, bb=1}\nc\nbb\nok\nnull\nok\n{10=3, c=2, bb=1}\nIllegalArgumentException\nUnsupportedOperationException\ntrue\ntrue\nfalse\ntrue\n{10=3, c=2}\n",
    ),
    // A list that is its own argument.
    (
        b"new l ArrayList\nl.add(1)\nl.add(2)\nl.addAll(l)\nl\nl.removeAll(l)\nl\nl.removeAll(l)\nl.get(0)\n",
        b"ok\ntrue\ntrue\ntrue\n[1, 2, 1, 2]\ntrue\n[]\nfalse\nIndexOutOfBoundsException\n",
    ),
    // A list by its indexes, from either end.
    (
        b"new l ArrayList\nlet r = l.reverse\nr.add(1)\nr.add(2)\nl\nr.add(1, 3)\nl\nr.set(0, 4)\nl\nr.get(2)\nr.indexOf(3)\nr.indexOf(9)\nr.add(4, 9)\nr.removeAt(-1)\nl.get(2147483648)\nr.removeAt(0)\nl.filter(odd).clear\nl\n",
        b"ok\nok\ntrue\ntrue\n[2, 1]\nok\n[2, 3, 1]\n1\n[2, 3, 4]\n2\n1\n-1\nIndexOutOfBoundsException\nIndexOutOfBoundsException\n?call\n4\nok\n[2]\n",
    ),
    // A list transformed, whose sums pass 32 bits.
    (
        b"new l ArrayList\nl.add(1)\nl.add(a)\nlet f = l.transform(when(isInt, times(2), prefix(x)))\nf\nf.add(4)\nf.remove(2)\nl\nl.add(2147483647)\nl.transform(plus(1))\n",
        b"ok\ntrue\ntrue\nok\n[2, xa]\nUnsupportedOperationException\ntrue\n[a]\ntrue\n[a, 2147483648]\n",
    ),
    // Numbers of 64 bits: a sum that wraps, a number and an index that are too large.
    (
        b"new l ArrayList\nl.add(9223372036854775807)\nl.transform(plus(1))\nl.add(9223372036854775808)\nl.get(2147483648)\n",
        b"ok\ntrue\n[-9223372036854775808]\n?syntax\n?call\n",
    ),
    // Nested views of a map, written through.
    (
        b"new m LinkedHashMap\nm.put(a, 1)\nm.put(b, 2)\nlet v = m.filterValues(odd).transformValues(neg)\nv\nv.put(a, 3)\nv.keySet.remove(b)\nv.keySet.remove(a)\nm\nm.unmodifiable.remove(b)\nm.filterEntries(and(key(eq(b)), value(gt(1))))\n",
        b"ok\nnull\nnull\nok\n{a=-1}\nUnsupportedOperationException\nfalse\ntrue\n{b=2}\nUnsupportedOperationException\n{b=2}\n",
    ),
    // A set as a map.
    (
        b"new s LinkedHashSet\ns.add(2)\ns.add(1)\ns.add(2)\nlet m = s.asMap(times(10))\nm\nm.put(3, 30)\nm.remove(2)\ns\nm.containsKey(1)\nnew t LinkedHashSet\nt.add(3)\nt.add(1)\ns.addAll(t)\ns.addAll(t)\ns\ns.retainAll(t)\ns.containsAll(t)\nt.clear\ns.retainAll(t)\ns\n",
        b"ok\ntrue\ntrue\nfalse\nok\n{2=20, 1=10}\nUnsupportedOperationException\n20\n[1]\ntrue\nok\ntrue\ntrue\ntrue\nfalse\n[1, 3]\nfalse\ntrue\nok\ntrue\n[]\n",
    ),
    // A bimap: a value that is another key's is refused, and taken by force, from either side.
    (
        b"new b HashBiMap\nb.put(one, 1)\nb.put(two, 2)\nb.put(four, 2)\nb.put(one, 1)\nb.put(one, 9)\nlet i = b.inverse\ni\ni.put(2, one)\ni.put(2, zwei)\nb\ni.put(7, seven)\nb.forcePut(zwei, 9)\nb\ni.forcePut(9, seven)\nb\nb.remove(x)\ni.remove(9)\ni\n",
        b"ok\nnull\nnull\nIllegalArgumentException\n1\n1\nok\n{9=one, 2=two}\nIllegalArgumentException\ntwo\n{one=9, zwei=2}\nnull\n2\n{zwei=9, seven=7}\nzwei\n{seven=9}\nnull\nseven\n{}\n",
    ),
    // Views of a bimap, looked up and written through by either part.
    (
        b"new b HashBiMap\nb.put(a, 1)\nb.put(sun, 3)\nb.put(c, 5)\nb.values\nb.values.contains(5)\nb.values.add(6)\nb.values.remove(5)\nb.containsValue(5)\nb.inverse.containsKey(3)\nb.inverse.get(3)\nlet f = b.filterKeys(starts(s))\nf.put(x, 5)\nf.inverse.put(4, sky)\nb\nf.inverse.forcePut(1, sea)\nb\nb.transformValues(neg)\nb.transformValues(neg).put(q, 1)\nb.entrySet.contains(sky, 4)\nb.inverse.entrySet.remove(4, sky)\nb.unmodifiable.forcePut(k, 1)\nnew v ArrayList\nv.add(1)\nv.add(8)\nf.values.retainAll(v)\nb\nb.values.removeAll(v)\nb\nb.isEmpty\nv.forcePut(1, 2)\n",
        b"ok\nnull\nnull\nnull\n[1, 3, 5]\ntrue\nUnsupportedOperationException\ntrue\nfalse\ntrue\nsun\nok\nIllegalArgumentException\nnull\n{a=1, sun=3, sky=4}\nnull\n{sea=1, sun=3, sky=4}\n{sea=-1, sun=-3, sky=-4}\nUnsupportedOperationException\ntrue\ntrue\nUnsupportedOperationException\nok\ntrue\ntrue\ntrue\n{sea=1}\ntrue\n{}\ntrue\n?call\n",
    ),
    // What goes from a window goes from there alone, and of many elements each goes.
    (
        b"new s TreeSet\ns.add(1)\ns.add(2)\ns.add(3)\ns.add(4)\nlet w = s.within([2..3])\nw.clear\nw.clear\ns\ns.add(2)\ns.add(3)\nnew n ArrayList\nn.add(3)\nn.add(4)\nn.add(9)\nw.retainAll(n)\ns\ns.removeAll(n)\ns\ns.removeAll(n)\ns.clear\ns\n",
        b"ok\ntrue\ntrue\ntrue\ntrue\nok\nok\nok\n[1, 4]\ntrue\ntrue\nok\ntrue\ntrue\ntrue\ntrue\n[1, 3, 4]\ntrue\n[1]\nfalse\nok\n[]\n",
    ),
    // Two views that show the same: lists in one order, sets, maps and bimaps in any.
    (
        b"new l ArrayList\nl.add(a)\nl.add(b)\nnew k ArrayList\nk.add(b)\nk.add(a)\nl.equals(k)\nlet r = k.reverse\nl.equals(r)\nnew s LinkedHashSet\ns.add(a)\ns.add(b)\nnew t TreeSet\nt.add(b)\ns.equals(t)\nt.add(a)\ns.equals(t)\nt.add(c)\ns.equals(t)\nt.equals(s)\nnew m LinkedHashMap\nm.put(a, 1)\nnew b HashBiMap\nb.put(a, 1)\nm.equals(b)\nb.equals(m)\nlet i = b.inverse\nb.equals(i)\nm.put(b, 2)\nb.equals(m)\nm.equals(l)\nl.equals(l)\n",
        b"ok\ntrue\ntrue\nok\ntrue\ntrue\nfalse\nok\ntrue\nok\ntrue\ntrue\nok\ntrue\nfalse\ntrue\ntrue\ntrue\nfalse\nfalse\nok\nnull\nok\nnull\ntrue\ntrue\nok\nfalse\nnull\nfalse\n?call\ntrue\n",
    ),
    // Lines that are refused, the longest path, and a last line without a newline.
    (
        b"foo bar\nq\nnew m LinkedHashMap\nm.first\nm.get([1..2])\nm.putAll(q)\nnew x Unknown\nnew l ArrayList\nlet x = l.reverse.reverse.reverse.reverse.reverse.reverse.reverse.reverse.reverse.reverse.reverse.reverse.reverse.reverse.reverse.reverse.reverse.reverse.reverse.reverse.reverse.reverse.reverse.reverse.reverse.reverse.reverse.reverse.reverse.reverse.reverse.reverse\nx.reverse\nx.filter(not(not(not(not(not(not(not(not(not(not(not(not(not(not(not(not(not(not(not(not(not(not(not(not(not(not(not(not(not(not(not(not(not(not(not(not(not(not(not(not(not(not(not(not(not(not(not(not(not(not(not(not(not(not(not(not(not(not(not(not(not(not(not(not(any)))))))))))))))))))))))))))))))))))))))))))))))))))))))))))))))))\nx.filter(not(not(not(not(not(not(not(not(not(not(not(not(not(not(not(not(not(not(not(not(not(not(not(not(not(not(not(not(not(not(not(not(not(not(not(not(not(not(not(not(not(not(not(not(not(not(not(not(not(not(not(not(not(not(not(not(not(not(not(not(not(not(not(not(any))))))))))))))))))))))))))))))))))))))))))))))))))))))))))))))))).foo\nm",
        b"?syntax\n?name\nok\n?call\n?call\n?name\n?call\nok\nok\n?limit\n?limit\n?call\n{}\n",
    ),
    // Iterators over a list: two of them, one's removal, and a row that comes beside them.
    (
        b"new l ArrayList\nl.add(1)\nl.add(2)\nl.add(3)\nit i = l\nit j = l.reverse\ni.remove\ni.next\ni.next\ni.remove\ni.remove\nl\ni.hasNext\nj.hasNext\nj.next\nj.remove\ni.next\ni.hasNext\ni.next\ni.remove\nl\nit j = l.transform(times(5))\nj.next\nl.set(0, 7)\nj.hasNext\nj.remove\nl\nl.add(4)\ni.next\ni.remove\nit i = l\ni.next\nl.add(5)\ni.remove\n",
        b"ok\ntrue\ntrue\ntrue\nok\nok\nIllegalStateException\n1\n2\nok\nIllegalStateException\n[1, 3]\ntrue\nConcurrentModificationException\nConcurrentModificationException\nIllegalStateException\n3\nfalse\nNoSuchElementException\nok\n[1]\nok\n5\n1\nfalse\nok\n[]\ntrue\nConcurrentModificationException\nIllegalStateException\nok\n4\ntrue\nConcurrentModificationException\n",
    ),
    // Iterators over sets and maps, which a value that is replaced leaves fresh; a filter, and a view that allows nothing.
    (
        b"new s TreeSet\ns.add(5)\ns.add(7)\ns.add(1)\nit k = s.descending.filter(odd)\nk.next\nk.next\ns.add(5)\nk.remove\nk.next\nk.hasNext\nk.next\nit k = s.within([2..+\xE2\x88\x9E))\nk.next\nk.remove\ns\nk.next\nnew m LinkedHashMap\nm.put(a, 1)\nm.put(b, 2)\nm.put(c, 3)\nit e = m.entrySet\nit v = m.values\ne.next\nm.put(b, 8)\ne.next\ne.remove\ne.next\ne.hasNext\nm\nv.hasNext\nv.remove\nit u = m.keySet.unmodifiable\nu.remove\nu.next\nu.remove\nit f = m.filterValues(gt(1)).keySet\nf.hasNext\nf.next\nf.remove\ns.clear\nf.hasNext\nm.clear\nf.hasNext\n",
        b"ok\ntrue\ntrue\ntrue\nok\n7\n5\nfalse\nUnsupportedOperationException\n1\nfalse\nNoSuchElementException\nok\n5\nok\n[1, 7]\n7\nok\nnull\nnull\nnull\nok\nok\na=1\n2\nb=8\nok\nc=3\nfalse\n{a=1, c=3}\nConcurrentModificationException\nIllegalStateException\nok\nUnsupportedOperationException\na\nUnsupportedOperationException\nok\ntrue\nc\nUnsupportedOperationException\nok\nfalse\nok\nConcurrentModificationException\n",
    ),
    // Pairs of a bimap; what is no iterator, what is no view, and a name that is bound again.
    (
        b"new b HashBiMap\nb.put(one, 1)\nb.put(two, 2)\nit p = b.inverse.entrySet\np.next\nb.put(one, 1)\np.next\np.remove\nb\np.hasNext\nb.put(two, 2)\nit p = b.values\nb.inverse.put(2, zwei)\np.next\nit q = b\nit q = b.keySet.size\nit q = b.within([2..1])\nit q = b.keySet.within([2..1])\nit q = r\nit q = p\nlet q = p\np\np.size\np.next(1)\np.next.next\nnew l ArrayList\nl.addAll(p)\nl.containsAll(p)\nl.addAll(r)\nnew t TreeMap\nit q = t.within([2..1])\nit q = t.within([2..1]).keySet\nit b = b.keySet\nb.next\nb\nb.next\nb.next\nb.remove\nb.hasNext\nnew b TreeSet\nb\n",
        b"ok\nnull\nnull\nok\n1=one\n1\n2=two\nok\n{one=1}\nfalse\nnull\nok\ntwo\nConcurrentModificationException\n?call\n?call\n?call\n?call\n?name\n?call\n?call\n?call\n?call\n?call\n?call\nok\n?call\n?call\n?name\nok\n?call\nIllegalArgumentException\nok\none\n?call\nzwei\nNoSuchElementException\nok\nfalse\nok\n[]\n",
    ),
];
